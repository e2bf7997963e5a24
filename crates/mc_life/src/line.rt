//! What a line of a script says.
ghost use Rattle.std.specs.Prelude.{◌≡◌, ◌≤◌, ◌==◌, ◌&&◌, false, if◌then◌else◌, length, not, take, true};
ghost use Rattle.std.specs.Str.{IsCharBoundary};
ghost use Rattle.mc_life.specs.Script.{before_comment, said, without_return, without_spaces};

// A text without a carriage return at its end.
fn without_return(text: &str) -> &str
    ensures { result.now ≡ without_return text.now }
{
    text.strip_suffix('\r').unwrap_or(text)
}

// Whether a comment begins with a byte.
fn begins_comment(byte: u8, here: bool, quoted: bool) -> bool
    ensures { result ≡ (byte == 35) && (here && not quoted) }
{
    byte == b'#' && here && !quoted
}

// Whether what comes after a byte stands in double quotes.
fn is_quoted(byte: u8, quoted: bool) -> bool
    ensures { result ≡ if byte == 34 then not quoted else quoted }
{
    if byte == b'"' { !quoted } else { quoted }
}

// Where a comment begins, or the text ends.
fn comment_at(text: &str) -> usize
    ensures value { take result text.now ≡ before_comment true false text.now }
    ensures inside { result ≤ length text.now }
    ensures boundary { IsCharBoundary text.now result }
{
    let mut here = true;
    let mut quoted = false;
    let mut at = 0;
    'bytes: for byte in text.as_bytes() {
        if begins_comment(*byte, here, quoted) {
            return at;
        }
        quoted = is_quoted(*byte, quoted);
        here = *byte == b' ';
        at += 1;
    }
    at
}

// A text without the spaces at its end.
fn without_spaces(text: &str) -> &str
    ensures { result.now ≡ without_spaces text.now }
{
    text.trim_end_matches(' ')
}

/// What a line says: it has no carriage return at its end, then no comment, and then no spaces at its end.
#[tactic(auto, unfolding(crate::specs::Script::said))]
pub fn said(line: &str) -> &str
    ensures { result.now ≡ said line.now }
{
    let text = without_return(line);
    without_spaces(&text[..comment_at(text)])
}
