//! How long the first line of a text is, and how many lines a text has.

ghost use Rattle.std.specs.Prelude.{◌≡◌, ◌<◌, ◌+◌, ◌-◌, ◌^◌, ◌≤◌, length};
ghost use Rattle.std.specs.List.{count_by, position_or_len};
ghost use Rattle.nim_lex.specs.Bytes.{is_newline};
ghost use Rattle.nim_lex.specs.Source.{line_count};

/// The length of the first line, without its newline.
pub fn line_len(text: &[u8]) -> usize
    ensures { result ≡ position_or_len is_newline text.now }
{
    text.iter().take_while(|b| **b != b'\n').count()
}

/// The number of the line behind the last. The last piece of a text is a line only if it isn't empty.
#[tactic(auto, using(crate::proofs::Counts::count_within))]
pub fn end_line(source: &[u8]) -> u32
    requires { length source.now < 2 ^ 32 - 1 }
    ensures { result ≡ line_count source.now + 1 }
{
    line_count(source) as u32 + 1
}

fn newlines(source: &[u8]) -> usize
    ensures count { result ≡ count_by is_newline source.now }
    ensures within { result ≤ length source.now }
{
    source.iter().filter(|b| **b == b'\n').count()
}

fn line_count(source: &[u8]) -> usize
    requires { length source.now < 2 ^ 32 }
    ensures { result ≡ line_count source.now }
{
    if source.is_empty() {
        return 0;
    }
    let ended = newlines(source);
    if source[source.len() - 1] == b'\n' {
        ended
    } else {
        ended + 1
    }
}
