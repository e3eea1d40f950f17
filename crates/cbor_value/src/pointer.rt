//! A path to a value within a value, as JSON Pointer has it (RFC 6901).

ghost use Rattle.std.specs.Prelude.{◌≡◌, ◌<◌, [], ◌∷◌, length, option_map, IfSome, MatchOption};
ghost use Rattle.cbor_model.specs.Canonical.{IsOrdered};
ghost use Rattle.cbor_model.specs.Order.{lex};
ghost use Rattle.cbor_model.specs.Plain.{text};
ghost use Rattle.cbor_value.specs.Pointer.{unescape, position_of, step as one_step};
ghost use Rattle.cbor_value.specs.Pointer.{pointer as points_to};
ghost use Rattle.cbor_value.specs.View.{view};

use super::Value;
use super::lookup::Key;
use std::cmp::Ordering;

impl Value {
    /// What a path leads to, as JSON Pointer has it (RFC 6901), or `None` where it leads nowhere.
    /// It takes no memory.
    ///
    /// A path is empty, and leads to the value itself, or it is a `/` and tokens with a `/` between
    /// each two. A token names a text key of a map, where `~1` stands for `/` and `~0` for `~`, and
    /// a `~` before anything else for itself; or a position in an array, in decimal with no leading
    /// zero. Keys of a map that are no texts have no token, and neither has what is tagged.
    ///
    /// ```rust
    /// let ports = vec![in alloc; Value::Integer(80), Value::Integer(8080)]?;
    /// let mut map = Map::new(alloc);
    /// map.insert(Value::Text("a/b".to_owned(alloc)?), Value::Array(ports))?;
    /// let value = Value::Map(map);
    /// assert_eq!(rt; value.pointer("/a~1b/1"), Some(&Value::Integer(8080)));
    /// assert_eq!(rt; value.pointer("/a~1b/2"), None);
    /// ```
    pub fn pointer(&self, path: &str) -> Option<&Value>
        ensures found { IsOrdered (view self.now) → option_map (λ v. view v.now) result
            ≡ points_to path.now (view self.now) }
        ensures ordered { IsOrdered (view self.now) → IfSome result (λ v. IsOrdered (view v.now)) }
    {
        if path.is_empty() {
            return Some(self);
        }
        let mut rest = path.strip_prefix('/')?;
        let mut target = self;
        'tokens: while let Some((token, more)) = rest.split_once('/') {
            target = target.step(token)?;
            rest = more;
        }
        target.step(rest)
    }

    /// What a token names in the value.
    fn step(&self, token: &str) -> Option<&Value>
        ensures found { IsOrdered (view self.now) → option_map (λ v. view v.now) result
            ≡ one_step token.now (view self.now) }
        ensures ordered { IsOrdered (view self.now) → IfSome result (λ v. IsOrdered (view v.now)) }
    {
        match self {
            Value::Map(_) => self.value_of(&Token(token)),
            Value::Array(_) => self.get_index(position(token)?),
            _ => None,
        }
    }
}

/// The position that a token is in decimal, with neither a sign nor a leading zero.
fn position(token: &str) -> Option<usize>
    ensures { result ≡ position_of token.now }
{
    if token.starts_with('+') {
        return None;
    }
    if token.len() > 1 && token.starts_with('0') {
        return None;
    }
    token.parse().ok()
}

/// A token as the key that it names.
#[derive(Clone, Copy)]
struct Token<'a>(&'a str);

impl Key for Token<'_> {
    ghost stands_for = { λ token. text (unescape token.0.now) };

    /// As a text: integers and byte strings stand before it, and all else after it.
    #[tactic(auto, unfolding(cbor_model::specs::Order::flat))]
    fn compare(&self, other: &Value) -> Ordering {
        match other {
            Value::Text(text) => cmp_token(self.0.as_bytes(), text.as_bytes()),
            Value::Integer(_) => Ordering::Greater,
            Value::Bytes(_) => Ordering::Greater,
            _ => Ordering::Less,
        }
    }
}

/// The order of the text that a token stands for and another: the shorter first, and then by bytes.
fn cmp_token(token: &[u8], text: &[u8]) -> Ordering
    ensures { result ≡ lex (length (unescape token.now) ∷ unescape token.now)
        (length text.now ∷ text.now) }
{
    match unescaped_len(token).cmp(&text.len()) {
        Ordering::Equal => {}
        other => return other,
    }
    let mut rest = token;
    let mut i = 0;
    'bytes: while let Some((byte, after)) = first_unescaped(rest) {
        match byte.cmp(&text[i]) {
            Ordering::Equal => {}
            other => return other,
        }
        rest = after;
        i += 1;
    }
    Ordering::Equal
}

/// The length of the text that a token stands for.
fn unescaped_len(token: &[u8]) -> usize
    ensures { result ≡ length (unescape token.now) }
{
    let mut rest = token;
    let mut count = 0;
    'bytes: while let Some((_, after)) = first_unescaped(rest) {
        rest = after;
        count += 1;
    }
    count
}

/// The first byte of the text that a token stands for, and what is left of the token.
fn first_unescaped(token: &[u8]) -> Option<(u8, &[u8])>
    ensures first { MatchOption result (token.now ≡ [])
        (λ r. unescape token.now ≡ r.0 ∷ unescape r.1.now) }
    ensures shorter { IfSome result (λ r. length r.1.now < length token.now) }
{
    if let Some(rest) = token.strip_prefix(b"~1") {
        return Some((b'/', rest));
    }
    if let Some(rest) = token.strip_prefix(b"~0") {
        return Some((b'~', rest));
    }
    let (first, rest) = token.split_first()?;
    Some((*first, rest))
}
