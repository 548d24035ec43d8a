//! Tables of names.

ghost use Rattle.std.specs.Prelude.{◌≡◌, map};
ghost use Rattle.rv_tables.specs.Names.{named_by};

/// What has a name in a table, or none if nothing has it.
pub fn named<V: Copy>(names: &[(&str, V)], name: &[u8]) -> Option<V>
    ensures { result ≡ named_by (map (λ p. (p.0.now, p.1)) names.now) name.now }
{
    names
        .iter()
        .find(|entry| entry.0.as_bytes() == name)
        .map(|entry| entry.1)
}
