//! Words: runs of letters, digits and underscores.

ghost use Rattle.std.specs.Prelude.{◌≡◌, ◌≤◌, length};
ghost use Rattle.mk_names.specs.Name as name;
ghost use Rattle.mk_text.specs.Words.{word_len};

/// How many letters, digits and underscores stand at the front.
pub fn word_len(bytes: &[u8]) -> usize
    ensures size { result ≡ word_len bytes.now }
    ensures within { result ≤ length bytes.now }
{
    for (i, byte) in bytes.iter().enumerate() {
        if !is_word_byte(*byte) {
            return i;
        }
    }
    bytes.len()
}

fn is_word_byte(byte: u8) -> bool
    ensures { result ≡ name.is_name_byte byte }
{
    byte.is_ascii_lowercase() || byte.is_ascii_digit() || byte == b'_'
}
