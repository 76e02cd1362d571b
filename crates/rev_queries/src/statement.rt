//! The rule that a build statement names.
ghost use Rattle.std.specs.Prelude.{◌≡◌, ◌≤◌, ◌==◌, ◌&&◌, false, length, not};
ghost use Rattle.std.specs.List.{prefix_len};
ghost use Rattle.rev_syntax.specs.Bytes.{is_in_name};
ghost use Rattle.rev_queries.specs.Statement.{after_colon as after_colon_of, is_between, rule_in as rule_of};

// Whether a byte is a colon before which no `$` stands.
fn is_colon(escaped: bool, byte: u8) -> bool
    ensures { result ≡ (not escaped && byte == 58) }
{
    !escaped && byte == b':'
}

// Whether a byte is a `$` before which no `$` stands.
fn is_escape(escaped: bool, byte: u8) -> bool
    ensures { result ≡ (not escaped && byte == 36) }
{
    !escaped && byte == b'$'
}

// What follows the first colon before which no `$` stands (Ninja manual, lexical syntax).
fn after_colon(statement: &[u8]) -> &[u8]
    ensures { result.now ≡ after_colon_of false statement.now }
{
    let mut escaped = false;
    for (place, byte) in statement.iter().enumerate() {
        if is_colon(escaped, *byte) {
            return statement.split_at(place + 1).1;
        }
        escaped = is_escape(escaped, *byte);
    }
    &[]
}

// Whether a byte may stand in the name of a rule (Ninja manual, lexical syntax).
fn is_of_rule(byte: u8) -> bool
    ensures { result ≡ is_in_name byte }
{
    byte.is_ascii_alphanumeric() || byte == b'_' || byte == b'-' || byte == b'.'
}

// How many bytes at the front of a text may not stand in the name of a rule.
fn between_len(text: &[u8]) -> usize
    ensures within { result ≤ length text.now }
    ensures run { result ≡ prefix_len is_between text.now }
{
    for (place, byte) in text.iter().enumerate() {
        if is_of_rule(*byte) {
            return place;
        }
    }
    text.len()
}

// How many bytes at the front of a text may stand in the name of a rule.
fn name_len(text: &[u8]) -> usize
    ensures within { result ≤ length text.now }
    ensures run { result ≡ prefix_len is_in_name text.now }
{
    for (place, byte) in text.iter().enumerate() {
        if !is_of_rule(*byte) {
            return place;
        }
    }
    text.len()
}

/// The name of the rule of a build statement, with which some bytes of a manifest begin. Empty where no name follows a
/// colon there. Time is linear in the statement's first line where that has a rule.
pub fn rule_in(statement: &[u8]) -> &[u8]
    ensures { result.now ≡ rule_of statement.now }
{
    let behind = after_colon(statement);
    let (_between, named) = behind.split_at(between_len(behind));
    named.split_at(name_len(named)).0
}
