//! The fields of a line.
ghost use Rattle.std.specs.Prelude.{◌≡◌};
ghost use Rattle.server_answers.specs.Fields as spec;

/// The first field of a line, and what stands behind the space after it.
pub fn cut_field(line: &str) -> (&str, &str)
    ensures field { result.0.now ≡ spec.field_of line.entry.now }
    ensures rest { result.1.now ≡ spec.rest_of line.entry.now }
{
    text_parts::cut(line, ' ')
}

/// Whether a line has so many fields: one more than spaces.
pub fn has_fields(line: &str, count: usize) -> bool
    ensures { result ≡ spec.has_fields count line.now }
{
    let spaces = line.as_bytes().iter().filter(|byte| **byte == b' ').count();
    spaces + 1 == count
}
