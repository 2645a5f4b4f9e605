use nim_lex::{Token, TokenKind, tokens};
use nim_lines::LineFault;
use nim_txtar::push_escaped;
use std::alloc::Global;

/// `tokens TEXT`: the tokens of a text with escapes, a line each.
pub fn tokens_line(alloc: Global, text: &str, out: &mut String) -> Result<(), LineFault> {
    let mut bytes = Vec::new(alloc);
    if push_escaped(alloc, &mut bytes, text, 0, 0).is_err() {
        return Err(LineFault::Form("the text has an escape that isn't one"));
    }
    match tokens(alloc, &bytes) {
        Ok(all) => {
            for token in &all {
                push_token(alloc, out, token)?;
            }
        }
        Err(_) => out.push_str("refused\n")?,
    }
    Ok(())
}

/// Where a token stands, and what it is.
fn push_token(alloc: Global, out: &mut String, token: &Token) -> Result<(), LineFault> {
    let (line, at, len) = (token.line, token.at, token.len);
    out.push_str(format!(in alloc; "line {line} at {at} length {len} ")?.as_str())?;
    match token.kind {
        TokenKind::Name => out.push_str("name\n")?,
        TokenKind::Sign => out.push_str("sign\n")?,
        TokenKind::Number(number) => out.push_str(format!(in alloc;
            "number {number}\n"
        )?.as_str())?,
    }
    Ok(())
}
