//! The parts of paths.

ghost use Rattle.std.specs.Prelude.{◌≡◌, ◌<◌, ◌≤◌, ◌∷◌, [], IfSome, None, drop, length, take};
ghost use Rattle.drawing_places.specs.Path.{is_global_text as of_global, labels_of, last_part, scope_part};

/// How many bytes the scope has in front of a base or a label: up to the last slash and with it.
pub fn scope_len(text: &[u8]) -> usize
    ensures scope { take result text.now ≡ scope_part text.now }
    ensures last { drop result text.now ≡ last_part text.now }
    ensures within { result ≤ length text.now }
{
    let mut end = text.len();
    while end > 0 && text[end - 1] != b'/' {
        end -= 1;
    }
    end
}

/// Whether the text is a global's.
pub fn is_global_text(text: &[u8]) -> bool
    ensures { result ≡ of_global text.now }
{
    match text.first() {
        None => false,
        Some(byte) => *byte == b'/',
    }
}

/// The first label of a scope, before what a FOR puts after it, and what follows the slash
/// after it; `None` if there is no slash.
pub fn split_label(scope: &[u8]) -> Option<(&[u8], &[u8])>
    ensures some { IfSome result (λ parts.
        labels_of scope.now ≡ parts.0.now ∷ labels_of parts.1.now) }
    ensures shorter { IfSome result (λ parts. length parts.1.now < length scope.now) }
    ensures none { result ≡ None → labels_of scope.now ≡ [] }
{
    let mut end = 0;
    while end < scope.len() && scope[end] != b'#' && scope[end] != b'/' {
        end += 1;
    }
    let mut slash = end;
    while slash < scope.len() && scope[slash] != b'/' {
        slash += 1;
    }
    if slash == scope.len() {
        return None;
    }
    Some((&scope[..end], &scope[slash + 1..]))
}
