//! The lines of a dialogue and of a framed session by their first words: how each is spelled, and what it does.

ghost use Rattle.std.specs.Prelude.{◌≡◌, option_map};
ghost use Rattle.debug_lines.specs.TopicViews.{form_value};
ghost use Rattle.debug_lines.specs.Topics.{first_form, in_both, in_dialogues, in_framed, other_form, topic_name, topic_named, topics};

/// The lines of a dialogue that begin with one word.
#[derive(Clone, Copy, Debug, PartialEq, Eq)]
pub enum Topic {
    /// `break`.
    Break,
    /// `clear`.
    Clear,
    /// `points`.
    Points,
    /// `go`.
    Go,
    /// `step`.
    Step,
    /// `over`.
    Over,
    /// `phase`.
    Phase,
    /// `turn`.
    Turn,
    /// `where`.
    Where,
    /// `regs`.
    Regs,
    /// `fregs`.
    Fregs,
    /// `list`.
    Codes,
    /// `bytes`.
    Bytes,
    /// `words`.
    Words,
    /// `text`.
    Text,
    /// `areas`.
    Areas,
    /// `requests`.
    Requests,
    /// `queue`.
    Queue,
    /// `keep`.
    Keep,
    /// `kept`.
    Kept,
    /// `back`.
    Back,
    /// `forget`.
    Forget,
    /// `costs`.
    Costs,
    /// `output`.
    Output,
    /// `nodes`.
    Nodes,
    /// `help`.
    Help,
    /// `quit`.
    Quit,
}

/// The sessions that have a form of lines. Scripts have no help.
#[derive(Clone, Copy)]
pub(crate) enum Sessions {
    /// Dialogues and framed sessions.
    Both,
    /// Dialogues alone, since a framed session has more.
    Dialogues,
    /// Framed sessions alone.
    Framed,
}

/// A form of the lines with one first word.
#[derive(Clone, Copy)]
pub(crate) struct LineForm {
    /// What is after that word: operands in capitals, and what can be left out in brackets.
    pub(crate) operands: &'static str,
    /// What a line of the form does.
    pub(crate) purpose: &'static str,
    pub(crate) sessions: Sessions,
}

/// All first words, in the order in which they are told.
static TOPICS: [Topic; 27] = [
    Topic::Break,
    Topic::Clear,
    Topic::Points,
    Topic::Go,
    Topic::Step,
    Topic::Over,
    Topic::Phase,
    Topic::Turn,
    Topic::Where,
    Topic::Regs,
    Topic::Fregs,
    Topic::Codes,
    Topic::Bytes,
    Topic::Words,
    Topic::Text,
    Topic::Areas,
    Topic::Requests,
    Topic::Queue,
    Topic::Keep,
    Topic::Kept,
    Topic::Back,
    Topic::Forget,
    Topic::Costs,
    Topic::Output,
    Topic::Nodes,
    Topic::Help,
    Topic::Quit,
];

/// The same, as a slice.
#[tactic(auto, unfolding(crate::specs::Topics::topics))]
pub(crate) fn all_topics() -> &'static [Topic]
    ensures { result.now ≡ topics }
{
    &TOPICS
}

/// The lines with a first word, if there are any.
pub(crate) fn topic_named(word: &[u8]) -> Option<Topic>
    ensures { result ≡ topic_named word.now }
{
    all_topics()
        .iter()
        .find(|topic| name_of(**topic).as_bytes() == word)
        .copied()
}

/// The first word of its lines.
pub(crate) fn name_of(topic: Topic) -> &'static str
    ensures { result.now ≡ topic_name topic }
{
    match topic {
        Topic::Break => "break",
        Topic::Clear => "clear",
        Topic::Points => "points",
        Topic::Go => "go",
        Topic::Step => "step",
        Topic::Over => "over",
        Topic::Phase => "phase",
        Topic::Turn => "turn",
        Topic::Where => "where",
        Topic::Regs => "regs",
        Topic::Fregs => "fregs",
        Topic::Codes => "list",
        Topic::Bytes => "bytes",
        Topic::Words => "words",
        Topic::Text => "text",
        Topic::Areas => "areas",
        Topic::Requests => "requests",
        Topic::Queue => "queue",
        Topic::Keep => "keep",
        Topic::Kept => "kept",
        Topic::Back => "back",
        Topic::Forget => "forget",
        Topic::Costs => "costs",
        Topic::Output => "output",
        Topic::Nodes => "nodes",
        Topic::Help => "help",
        Topic::Quit => "quit",
    }
}

/// The form of its lines, or the first of two.
pub(crate) fn first_form(topic: Topic) -> LineForm
    ensures { form_value result ≡ first_form topic }
{
    match topic {
        Topic::Break => in_both("RANK ADDR", "sets a point, at which go stops"),
        Topic::Clear => in_both("RANK ADDR", "removes a point"),
        Topic::Points => in_both("", "the points that are set"),
        Topic::Go => in_both("", "runs on to a point or to the outcome"),
        Topic::Step => in_both("", "the next instruction of all"),
        Topic::Over => in_both(
            "RANK",
            "an instruction of a rank, with all of a function that it calls",
        ),
        Topic::Phase => in_both("", "runs every rank until it stops by itself"),
        Topic::Turn => in_both("", "ends the superstep, if no rank runs any more"),
        Topic::Where => in_both("[RANK]", "where the ranks are, or one"),
        Topic::Regs => in_both("RANK", "the registers of a rank"),
        Topic::Fregs => in_both("RANK", "the floating-point registers of a rank, and fcsr"),
        Topic::Codes => in_both("RANK ADDR N", "N instructions from ADDR on"),
        Topic::Bytes => in_both("RANK ADDR LEN", "LEN bytes of memory"),
        Topic::Words => in_both("RANK ADDR N", "N words of four bytes"),
        Topic::Text => in_both("RANK ADDR N", "the text there, up to its end or to N bytes"),
        Topic::Areas => in_both("RANK", "the areas that a rank has registered"),
        Topic::Requests => in_both("RANK", "what a rank has asked for in this superstep"),
        Topic::Queue => in_both(
            "RANK",
            "the messages that a rank has received and not moved yet",
        ),
        Topic::Keep => in_both("", "keeps the state under the next number"),
        Topic::Kept => in_both("", "the states that are kept"),
        Topic::Back => in_both("N", "goes back to a state that is kept"),
        Topic::Forget => in_both("N", "drops a kept state"),
        Topic::Costs => in_dialogues("", "what the supersteps that are over cost"),
        Topic::Output => in_dialogues("", "what was written in the supersteps that are over"),
        Topic::Nodes => in_framed("", "how many ranks there are, and the other settings"),
        Topic::Help => in_both("[LINE]", "all lines, or one"),
        Topic::Quit => in_both("", "ends the session"),
    }
}

/// The other of two, which framed sessions have.
pub(crate) fn other_form(topic: Topic) -> Option<LineForm>
    ensures { option_map form_value result ≡ other_form topic }
{
    match topic {
        Topic::Break | Topic::Clear => Some(in_both("superstep K", first_form(topic).purpose)),
        Topic::Go => Some(in_framed("RANK COUNT", "a rank alone, by COUNT steps at most")),
        Topic::Step => Some(in_both("RANK [COUNT]", "COUNT of a rank, or one")),
        Topic::Costs | Topic::Output => Some(in_framed("[FROM]", first_form(topic).purpose)),
        _ => None,
    }
}

/// A form that dialogues and framed sessions have.
fn in_both(operands: &'static str, purpose: &'static str) -> LineForm
    ensures { form_value result ≡ in_both operands.now purpose.now }
{
    LineForm {
        operands,
        purpose,
        sessions: Sessions::Both,
    }
}

/// A form that dialogues alone have.
fn in_dialogues(operands: &'static str, purpose: &'static str) -> LineForm
    ensures { form_value result ≡ in_dialogues operands.now purpose.now }
{
    LineForm {
        operands,
        purpose,
        sessions: Sessions::Dialogues,
    }
}

/// A form that framed sessions alone have.
fn in_framed(operands: &'static str, purpose: &'static str) -> LineForm
    ensures { form_value result ≡ in_framed operands.now purpose.now }
{
    LineForm {
        operands,
        purpose,
        sessions: Sessions::Framed,
    }
}
