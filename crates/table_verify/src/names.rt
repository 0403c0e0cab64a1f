//! Names and printed texts.

ghost use Rattle.std.specs.Prelude.{◌≡◌, map};
ghost use Rattle.std.specs.List.{list_all, list_any};
ghost use Rattle.std.specs.Str.{bytes_eq};
ghost use Rattle.sial_syntax.specs.Names as spec;

// The words that are never names.
const RESERVED: [&[u8]; 42] = [
    b"sial",
    b"endsial",
    b"aoindex",
    b"moindex",
    b"moaindex",
    b"mobindex",
    b"index",
    b"subindex",
    b"of",
    b"scalar",
    b"static",
    b"temp",
    b"local",
    b"distributed",
    b"served",
    b"proc",
    b"endproc",
    b"do",
    b"in",
    b"enddo",
    b"pardo",
    b"where",
    b"endpardo",
    b"if",
    b"else",
    b"endif",
    b"call",
    b"get",
    b"put",
    b"request",
    b"prepare",
    b"create",
    b"delete",
    b"allocate",
    b"deallocate",
    b"collective",
    b"sip_barrier",
    b"server_barrier",
    b"print",
    b"execute",
    b"print_scalar",
    b"compute_integrals",
];

// Whether a byte stands in names.
fn is_name_byte(byte: u8) -> bool
    ensures { result ≡ spec.is_name_byte byte }
{
    matches!(byte, b'a'..=b'z' | b'0'..=b'9' | b'_')
}

// Whether the first byte is a letter.
fn begins_with_letter(name: &[u8]) -> bool
    ensures { result ≡ spec.begins_with_letter name.now }
{
    matches!(name, [b'a'..=b'z', ..])
}

// Whether all bytes stand in names.
fn has_name_bytes(name: &[u8]) -> bool
    ensures { result ≡ list_all spec.is_name_byte name.now }
{
    name.iter().all(|byte| is_name_byte(*byte))
}

// Whether a word is reserved.
fn is_reserved(word: &[u8]) -> bool
    ensures { result ≡ spec.is_reserved word.now }
{
    is_among(word, RESERVED.as_slice())
}

// Whether a word is among others.
fn is_among(word: &[u8], words: &[&[u8]]) -> bool
    ensures { result ≡ list_any (bytes_eq word.now) (map (λ w. w.now) words.now) }
{
    for other in words {
        if word == *other {
            return true;
        }
    }
    false
}

/// Whether bytes are a name.
pub fn is_name(name: &[u8]) -> bool
    ensures { result ≡ spec.is_name name.now }
{
    begins_with_letter(name) && has_name_bytes(name) && name.len() <= 64 && !is_reserved(name)
}

// Whether a byte stands in printed texts.
fn is_text_byte(byte: u8) -> bool
    ensures { result ≡ spec.is_text_byte byte }
{
    matches!(byte, 32..=126) && byte != 34
}

// Whether all bytes stand in printed texts.
fn has_text_bytes(text: &[u8]) -> bool
    ensures { result ≡ list_all spec.is_text_byte text.now }
{
    text.iter().all(|byte| is_text_byte(*byte))
}

/// Whether bytes are a printed text.
pub fn is_text(text: &[u8]) -> bool
    ensures { result ≡ spec.is_text text.now }
{
    has_text_bytes(text) && text.len() <= 1024
}
