// Tokens written into a buffer, each behind a space but the first of a text.

ghost use Rattle.std.specs.Prelude.{◌≡◌, ◌+◌, ◌≤◌, length};
ghost use Rattle.std.proofs.lemmas.List.Edits.{sets};
ghost use Rattle.eqn_write.specs.Values.{text_limit, token_text};

// Writes a token, and answers the place behind it.
pub fn put_token(out: &mut [u8], at: usize, token: &[u8]) -> usize
    requires { at + 1 + length token.now ≤ text_limit }
    ensures value { result ≡ at + length (token_text at token.now) }
    ensures out_after { out.new ≡ sets out.old at (token_text at token.now) }
{
    if at == 0 {
        put_bytes(out, at, token);
        return token.len();
    }
    if at < out.len() {
        out[at] = b' ';
    }
    put_bytes(out, at + 1, token);
    at + 1 + token.len()
}

// Writes bytes at a place; those that have no room are passed over.
fn put_bytes(out: &mut [u8], at: usize, bytes: &[u8])
    requires { at + length bytes.now ≤ text_limit }
    ensures { out.new ≡ sets out.old at bytes.now }
{
    for (i, b) in bytes.iter().enumerate() {
        if at + i < out.len() {
            out[at + i] = *b;
        }
    }
}
