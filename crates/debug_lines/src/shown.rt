//! How points, memory, areas and requests are shown.

ghost use Rattle.std.specs.Prelude.{◌≡◌, ◌+◌, ◌*◌, ◌/◌, ◌≤◌, ◌<◌, ◌^◌, ◌++◌, [], length, slice_get, take, IfOk, string_bytes};
ghost use Rattle.std.specs.List.{flat_map, prefix_len};
ghost use Rattle.std.specs.Option.{option_map_or};
ghost use Rattle.rv_listing.specs.Listing.{ended_line};
ghost use Rattle.bsp_requests.specs.Request.{asked as asked_of};
ghost use Rattle.debug_lines.specs.Shown.{area_line, area_lines, asked_text, character, code_lines, is_of_text, point_line};
ghost use Rattle.debug_lines.specs.Shown.{point_lines, put_text, get_text, send_text, request_line, request_lines};
ghost use Rattle.debug_lines.specs.Shown.{shown_len, shown_text, text_line, unit_of, word_entry, word_head, word_lines};

use crate::character::Character;
use crate::form::Form;
use crate::reply::{PointText, entry_end};
use bsp_debug::Point;
use bsp_requests::{Get, Request, Requests};
use bsp_slots::{Area, Slots};
use list_vec::ListVec;
use node_memory::Segment;
use rv_atomics::Extensions;
use rv_listing::{EightDigits, Lines, ShownLine, word_at};
use std::alloc::{AllocError, Allocator};

/// Points, a line for each. It is an error only if memory is refused.
pub fn point_lines<A: Allocator>(alloc: A, points: &[Point]) -> Result<String<A>, AllocError>
    ensures { IfOk result (λ text. string_bytes text ≡ point_lines points.now) }
{
    let mut text = String::new(alloc);
    for point in points {
        add_point(&mut text, *point)?;
    }
    Ok(text)
}

/// Adds the line of a point to a text.
fn add_point<A: Allocator>(text: &mut String<A>, point: Point) -> Result<(), AllocError>
    ensures { IfOk result (λ _. string_bytes text.new ≡ string_bytes text.old ++ point_line point) }
{
    writeln!(text, "{}", PointText(point))
}

/// How many bytes to show for so many words, characters or codes, if so many bytes are left up to the end of the memory.
pub fn shown_len(form: Form, count: u32, left: u32) -> u32
    ensures { result ≡ shown_len form count left }
{
    let wanted = u64::from(count) * unit_of(form);
    if wanted < u64::from(left) {
        wanted as u32
    } else {
        left
    }
}

/// How many bytes there are to look at for one word, character or code.
fn unit_of(form: Form) -> u64
    ensures value { result ≡ unit_of form }
    ensures few { result ≤ 4 }
{
    match form {
        Form::Words => 4,
        Form::Text => 1,
        Form::Codes => 4,
    }
}

/// Bytes from the address `addr` on, as so many words, characters or codes. Among codes instructions of these extensions have their names,
/// and those of others are data. It is an error only if memory is refused.
pub fn shown_text<A: Allocator, B: Allocator>(
    alloc: B,
    form: Form,
    extensions: Extensions,
    addr: u32,
    count: u32,
    bytes: Vec<u8, A>,
) -> Result<String<B>, AllocError>
    requires { addr + length bytes.items < 2 ^ 32 }
    ensures { IfOk result (λ text. string_bytes text ≡ shown_text form extensions addr count bytes.items) }
{
    match form {
        Form::Words => word_lines(alloc, addr, bytes.as_slice()),
        Form::Text => text_line(alloc, bytes.as_slice()),
        Form::Codes => code_lines(alloc, extensions, addr, count, bytes),
    }
}

/// The whole words of bytes from an address on, four in a row.
fn word_lines<B: Allocator>(alloc: B, addr: u32, bytes: &[u8]) -> Result<String<B>, AllocError>
    requires { addr + length bytes.now ≤ 2 ^ 32 }
    ensures { IfOk result (λ text. string_bytes text ≡ word_lines addr bytes.now) }
{
    let mut text = String::new(alloc);
    for at in 0..bytes.len() / 4 {
        add_word(&mut text, addr, bytes, at)?;
    }
    Ok(text)
}

/// Adds to a text the word at a place among those of bytes from an address on, after the address if it begins a row.
fn add_word<B: Allocator>(
    text: &mut String<B>,
    addr: u32,
    bytes: &[u8],
    at: usize,
) -> Result<(), AllocError>
    requires within { at < length bytes.now / 4 }
    requires in_addresses { addr + length bytes.now ≤ 2 ^ 32 }
    ensures { IfOk result (λ _. string_bytes text.new
        ≡ string_bytes text.old ++ word_entry addr (length bytes.now / 4) bytes.now at) }
{
    add_head(text, addr, at)?;
    let word = EightDigits(word_at(bytes, 4 * at));
    let end = entry_end(4, bytes.len() / 4, at);
    write!(text, "{word}{end}")?;
    Ok(())
}

/// Adds to a text the address of the word at a place, if it begins a row.
fn add_head<B: Allocator>(text: &mut String<B>, addr: u32, at: usize) -> Result<(), AllocError>
    requires { addr + 4 * at < 2 ^ 32 }
    ensures { IfOk result (λ _. string_bytes text.new ≡ string_bytes text.old ++ word_head addr at) }
{
    if at % 4 == 0 {
        write!(text, "{}: ", EightDigits(addr + 4 * at as u32))?;
    }
    Ok(())
}

/// Bytes as a text in quotes, up to the first that is 0.
fn text_line<B: Allocator>(alloc: B, bytes: &[u8]) -> Result<String<B>, AllocError>
    ensures { IfOk result (λ text. string_bytes text ≡ text_line bytes.now) }
{
    let mut text = String::new(alloc);
    write!(text, "\"")?;
    add_characters(&mut text, &bytes[..text_len(bytes)])?;
    write!(text, "\"\n")?;
    Ok(text)
}

/// How many bytes come before the first that is 0.
#[tactic(auto, using(crate::proofs::FirstWords::prefix_is_within))]
fn text_len(bytes: &[u8]) -> usize
    ensures value { result ≡ prefix_len is_of_text bytes.now }
    ensures within { result ≤ length bytes.now }
{
    for (at, byte) in bytes.iter().enumerate() {
        if *byte == 0 {
            return at;
        }
    }
    bytes.len()
}

/// Adds bytes to a text as characters.
fn add_characters<B: Allocator>(text: &mut String<B>, bytes: &[u8]) -> Result<(), AllocError>
    ensures { IfOk result (λ _. string_bytes text.new ≡ string_bytes text.old ++ flat_map character bytes.now) }
{
    for byte in bytes {
        write!(text, "{}", Character(*byte))?;
    }
    Ok(())
}

/// The first lines of the listing of bytes from an address on.
fn code_lines<A: Allocator, B: Allocator>(
    alloc: B,
    extensions: Extensions,
    addr: u32,
    count: u32,
    bytes: Vec<u8, A>,
) -> Result<String<B>, AllocError>
    requires { addr + length bytes.items < 2 ^ 32 }
    ensures { IfOk result (λ text. string_bytes text ≡ code_lines extensions addr count bytes.items) }
{
    let size = bytes.len() as u32;
    let bytes = ListVec::from_vec(bytes);
    let segment = Segment { addr, bytes, size };
    let mut text = String::new(alloc);
    add_codes(&mut text, extensions, Lines::new(&segment), count)?;
    Ok(text)
}

/// Adds the first lines of a listing to a text.
fn add_codes<B: Allocator>(
    text: &mut String<B>,
    extensions: Extensions,
    mut lines: Lines<'_>,
    count: u32,
) -> Result<(), AllocError>
    ensures { IfOk result (λ _. string_bytes text.new
        ≡ string_bytes text.old ++ flat_map (ended_line extensions) (take count lines.entry)) }
{
    for _told in 0..count {
        let Some(line) = lines.next() else {
            return Ok(());
        };
        writeln!(text, "{}", ShownLine { line, extensions })?;
    }
    Ok(())
}

/// The areas that a node has registered, a line for each. It is an error only if memory is refused.
pub fn area_lines<A: Allocator + Copy, B: Allocator>(
    alloc: B,
    slots: &Slots<A>,
) -> Result<String<B>, AllocError>
    ensures { IfOk result (λ text. string_bytes text ≡ area_lines slots.now.registrations.in_effect) }
{
    let mut text = String::new(alloc);
    for number in 0..slots.count() {
        add_area_at(&mut text, slots, number)?;
    }
    Ok(text)
}

/// Adds the line of the area of a number to a text, if there is one.
fn add_area_at<A: Allocator + Copy, B: Allocator>(
    text: &mut String<B>,
    slots: &Slots<A>,
    number: usize,
) -> Result<(), AllocError>
    ensures { IfOk result (λ _. string_bytes text.new ≡ string_bytes text.old
        ++ option_map_or (λ area. area_line (number, area)) (slice_get slots.now.registrations.in_effect number) []) }
{
    match slots.area(number) {
        Some(area) => add_area(text, number, area),
        None => Ok(()),
    }
}

/// Adds the line of an area to a text.
fn add_area<B: Allocator>(text: &mut String<B>, number: usize, area: Area) -> Result<(), AllocError>
    ensures { IfOk result (λ _. string_bytes text.new ≡ string_bytes text.old ++ area_line (number, area)) }
{
    let addr = EightDigits(area.addr);
    let size = area.size;
    writeln!(text, "area {number} at {addr} size {size}")
}

/// What a node has asked for, a line for each request. It is an error only if memory is refused.
pub fn request_lines<A: Allocator + Copy, B: Allocator>(
    alloc: B,
    requests: &Requests<A>,
) -> Result<String<B>, AllocError>
    ensures { IfOk result (λ text. string_bytes text ≡ request_lines requests.now.requests) }
{
    let mut text = String::new(alloc);
    for number in 0..requests.len() {
        add_request_at(&mut text, requests, number)?;
    }
    Ok(text)
}

/// Adds the line of the request of a number to a text, if there is one.
fn add_request_at<A: Allocator + Copy, B: Allocator>(
    text: &mut String<B>,
    requests: &Requests<A>,
    number: usize,
) -> Result<(), AllocError>
    ensures { IfOk result (λ _. string_bytes text.new ≡ string_bytes text.old
        ++ option_map_or (λ asked. request_line (number, asked)) (slice_get requests.now.requests number) []) }
{
    match requests.at(number) {
        Some(request) => add_request(text, number, request),
        None => Ok(()),
    }
}

/// Adds the line of a request to a text.
fn add_request<A: Allocator, B: Allocator>(
    text: &mut String<B>,
    number: usize,
    request: &Request<A>,
) -> Result<(), AllocError>
    ensures { IfOk result (λ _. string_bytes text.new
        ≡ string_bytes text.old ++ request_line (number, asked_of request.now)) }
{
    write!(text, "request {number} ")?;
    add_asked(text, request)?;
    writeln!(text)
}

/// Adds to a text what a request asks.
fn add_asked<A: Allocator, B: Allocator>(
    text: &mut String<B>,
    request: &Request<A>,
) -> Result<(), AllocError>
    ensures { IfOk result (λ _. string_bytes text.new
        ≡ string_bytes text.old ++ asked_text (asked_of request.now)) }
{
    match request {
        Request::Put(put) => add_put(text, put.target, put.slot, put.offset, put.bytes.len()),
        Request::Get(get) => add_get(text, *get),
        Request::Send(message) => {
            let payload = message.payload().len();
            add_send(text, message.target, payload, message.tag().len())
        }
    }
}

/// Adds to a text what a put asks.
fn add_put<B: Allocator>(
    text: &mut String<B>,
    target: u16,
    slot: u16,
    offset: u32,
    bytes: usize,
) -> Result<(), AllocError>
    ensures { IfOk result (λ _. string_bytes text.new
        ≡ string_bytes text.old ++ put_text target slot offset bytes) }
{
    write!(
        text,
        "put to rank {target} area {slot} offset {offset} bytes {bytes}"
    )
}

/// Adds to a text what a get asks.
fn add_get<B: Allocator>(text: &mut String<B>, get: Get) -> Result<(), AllocError>
    ensures { IfOk result (λ _. string_bytes text.new
        ≡ string_bytes text.old ++ get_text get.target get.slot get.offset get.len get.dst) }
{
    let (target, slot, offset, bytes) = (get.target, get.slot, get.offset, get.len);
    let dst = EightDigits(get.dst);
    write!(
        text,
        "get from rank {target} area {slot} offset {offset} bytes {bytes} into {dst}"
    )
}

/// Adds to a text what a message asks.
fn add_send<B: Allocator>(
    text: &mut String<B>,
    target: u16,
    payload: usize,
    tag: usize,
) -> Result<(), AllocError>
    ensures { IfOk result (λ _. string_bytes text.new
        ≡ string_bytes text.old ++ send_text target payload tag) }
{
    write!(
        text,
        "send to rank {target} bytes {payload} tag bytes {tag}"
    )
}
