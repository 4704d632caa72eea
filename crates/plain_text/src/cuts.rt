//! What stands before, between and after other texts.
ghost use Rattle.std.specs.Prelude.{◌≡◌, ◌<◌, option_map};
ghost use Rattle.std.specs.Option.{option_copied};
ghost use Rattle.plain_text.specs.Parts;

/// What follows `prefix` at the head of `text`. None exactly where the text doesn't begin
/// with it. Takes no memory.
pub fn after_prefix<'a>(text: &'a str, prefix: &str) -> Option<&'a str>
    ensures { option_copied result ≡ Parts.after_prefix prefix.now text.now }
{
    text.strip_prefix(prefix)
}

/// What stands before and after the first `separator`. None exactly where there is none.
/// Takes no memory.
pub fn parted(text: &str, separator: char) -> Option<(&str, &str)>
    requires { separator < 128 }
    ensures { option_map (λ p. (p.0.now, p.1.now)) result ≡ Parts.parted separator text.now }
{
    text.split_once(separator)
}
