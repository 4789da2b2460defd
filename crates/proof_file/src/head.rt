ghost use Rattle.std.specs.Prelude.{◌≡◌, ℕ, ◌<◌, ◌==◌, ◌++◌, List, length, position, IfOk, IfErr};
ghost use Rattle.proof_file.specs.Heads.{IsFirstOther, IsLine};

/// What a file has after its head; or the number of the head's first line, counted from 1, that the file has otherwise,
/// has not, or has without its line feed. It takes no memory.
pub fn rest_after<'a>(file: &'a [u8], head: &[u8]) -> Result<&'a [u8], u32>
    requires { length file.now < 4294967295 }
    ensures rest { IfOk result (λ rest. file.now ≡ head.now ++ rest.now) }
    ensures other { IfErr result (IsFirstOther head.now file.now) }
    ensures exact { IfErr result (λ _. (rest : List ℕ) → file.now ≡ head.now ++ rest → ⊥) }
{
    let mut left = head;
    let mut rest = file;
    let mut number = 1;
    'comparing: while !left.is_empty() {
        let (line, later) = first_line(left);
        match rest.strip_prefix(line) {
            Some(more) => rest = more,
            None => return Err(number),
        }
        left = later;
        number += 1;
    }
    Ok(rest)
}

// the first line of a text, with its line feed, and what follows it
fn first_line(text: &[u8]) -> (&[u8], &[u8])
    requires { 0 < length text.now }
    ensures line { IsLine result.0.now result.1.now }
    ensures split { text.now ≡ result.0.now ++ result.1.now }
    ensures some { 0 < length result.0.now }
{
    match line_feed(text) {
        Some(end) => (&text[..end + 1], &text[end + 1..]),
        None => (text, &[]),
    }
}

fn line_feed(text: &[u8]) -> Option<usize>
    ensures { result ≡ position (λ b. b == 10) text.now }
{
    text.iter().position(|b| *b == b'\n')
}
