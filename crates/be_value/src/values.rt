//! Values of attributes.
ghost use Rattle.std.specs.Prelude.{◌≡◌, ◌<◌, ◌≤◌, ℕ, length, nat_eq, Ok, Err, IfOk, IsOk, IfSome};
ghost use Rattle.std.specs.Prelude.{IfNone, ◌↔◌, IsErrOf, OnOk};
ghost use Rattle.be_value.specs.Name.{text_from, bytes_from};
ghost use Rattle.be_value.specs.Value.{kind_of, code_of, kind_name, kind_number, is_indexable};
ghost use Rattle.be_value.specs.Value.{value_cmp};
ghost use Rattle.be_value.specs.Key.{IsValue};
ghost use Rattle.be_value.specs.declared.values.Kind.{Kind as AnyKind};
ghost use Rattle.std.specs.Cmp.{partial_equiv_from_equiv};
ghost use Rattle.std.specs.Cmp.Lexicographic.{bytes_decides, pointwise, nat_list_eq_equiv};
ghost use Rattle.std.specs.Hash as fed;
ghost use Rattle.std.proofs.Common.{ap};
ghost use Rattle.std.specs.Result as results;

use crate::Refusal;
use arrayvec::{ArrayString, ArrayVec};
use std::alloc::AllocError;
use std::cmp::Ordering;
use std::fmt;
use std::hash::{Hash, Hasher};
use std::marker::Model;

/// The kinds of value, named by their type codes.
#[derive(Clone, Copy, Debug, PartialEq, Eq, Hash)]
pub enum Kind {
    Cstr,
    Long,
    Llng,
    Mims,
    Rawt,
    Ulng,
    Ullg,
}

impl Kind {
    /// Returns the type code: four ASCII letters as a number.
    pub fn code(&self) -> u32
        ensures { result ≡ code_of self.now }
    {
        match self {
            Kind::Cstr => 0x4353_5452,
            Kind::Long => 0x4c4f_4e47,
            Kind::Llng => 0x4c4c_4e47,
            Kind::Mims => 0x4d49_4d53,
            Kind::Rawt => 0x5241_5754,
            Kind::Ulng => 0x554c_4e47,
            Kind::Ullg => 0x554c_4c47,
        }
    }

    /// Returns `true` if an index may have this kind.
    pub fn indexable(&self) -> bool
        ensures { result ≡ is_indexable self.now }
    {
        matches!(
            self,
            Kind::Cstr | Kind::Long | Kind::Llng | Kind::Ulng | Kind::Ullg
        )
    }

    /// Returns the kind's number in pages, counting from 1.
    pub fn number(&self) -> u8
        ensures { result ≡ kind_number self.now }
    {
        match self {
            Kind::Cstr => 1,
            Kind::Long => 2,
            Kind::Llng => 3,
            Kind::Mims => 4,
            Kind::Rawt => 5,
            Kind::Ulng => 6,
            Kind::Ullg => 7,
        }
    }

    /// Returns the kind with this number in pages, if there is one.
    pub fn numbered(number: u8) -> Option<Kind>
        ensures found { IfSome result (λ kind. kind_number kind ≡ number) }
        ensures none { IfNone result ((kind : AnyKind) → kind_number kind ≡ number → ⊥) }
    {
        match number {
            1 => Some(Kind::Cstr),
            2 => Some(Kind::Long),
            3 => Some(Kind::Llng),
            4 => Some(Kind::Mims),
            5 => Some(Kind::Rawt),
            6 => Some(Kind::Ulng),
            7 => Some(Kind::Ullg),
            _ => None,
        }
    }

    /// Returns the kind's name in text form.
    pub fn name(&self) -> &'static str
        ensures { result.now ≡ kind_name self.now }
    {
        match self {
            Kind::Cstr => "CSTR",
            Kind::Long => "LONG",
            Kind::Llng => "LLNG",
            Kind::Mims => "MIMS",
            Kind::Rawt => "RAWT",
            Kind::Ulng => "ULNG",
            Kind::Ullg => "ULLG",
        }
    }
}

/// The text of a value: at most 255 bytes of UTF-8 without NUL. Contracts see its bytes.
#[derive(Drop)]
pub struct Text {
    text: ArrayString<255>,
}

impl Model for Text {
    ghost use Rattle.std.specs.Prelude.{◌≡◌, ℕ, Ok, List};
    ghost use Rattle.be_value.specs.Name.{text_from};

    ghost Value = { List ℕ };

    ghost view = { λ t. t.text.bytes };

    ghost invariant = { λ t. text_from t.text.bytes ≡ Ok t.text.bytes };
}

impl Text {
    /// Creates a value's text from a string. If the length is wrong and there is a zero byte, the
    /// error is about the length.
    pub fn new(text: &str) -> Result<Text, Refusal>
        ensures { result ≡ text_from text.now }
    {
        if text.len() > 255 {
            return Err(Refusal::DataLength);
        }
        if text.as_bytes().contains(&0) {
            return Err(Refusal::HasNul);
        }
        match ArrayString::from(text) {
            Ok(text) => Ok(Text { text }),
            Err(_) => Err(Refusal::DataLength),
        }
    }

    /// Returns the text as a string, of at most 255 bytes with no zero byte.
    pub fn as_str(&self) -> &str
        ensures text { result.now ≡ self.now }
        ensures valid { text_from self.now ≡ Ok self.now }
    {
        self.text.as_str()
    }

    /// Returns an equal text. It allocates nothing.
    pub fn copy(&self) -> Text
        ensures { result ≡ self.now }
    {
        Text { text: self.text }
    }
}

/// Texts are equal if their bytes are.
impl PartialEq for Text {
    ghost eq = { pointwise nat_eq };

    ghost laws = { partial_equiv_from_equiv nat_list_eq_equiv };

    fn eq(&self, other: &Self) -> bool {
        self.text == other.text
    }
}

impl Eq for Text {
    ghost laws = { nat_list_eq_equiv };
}

impl Hash for Text {
    ghost hash_input = { λ t. fed.str t };

    ghost respects_eq = { λ s t e. ap fed.str ((bytes_decides s t).0 e) };

    fn hash<H: Hasher>(&self, state: &mut H) {
        self.as_str().hash(state);
    }
}

/// Prints the text in quotes.
impl fmt::Debug for Text {
    fn fmt<W: fmt::Write>(&self, f: &mut fmt::Formatter<W>) -> fmt::Result {
        write!(f, "{:?}", self.as_str())
    }
}

/// The bytes of a raw value, at most 255. Contracts see them as a list.
#[derive(Drop)]
pub struct Bytes {
    bytes: ArrayVec<u8, 255>,
}

impl Model for Bytes {
    ghost use Rattle.std.specs.Prelude.{ℕ, List};

    ghost Value = { List ℕ };

    ghost view = { λ b. b.bytes.items };
}

impl Bytes {
    /// Creates a raw value from these bytes. Fails with `DataLength` if there are more than 255.
    pub fn new(bytes: &[u8]) -> Result<Bytes, Refusal>
        ensures { result ≡ bytes_from bytes.now }
    {
        match ArrayVec::try_from(bytes) {
            Ok(bytes) => Ok(Bytes { bytes }),
            Err(_) => Err(Refusal::DataLength),
        }
    }

    /// Returns the bytes as a slice of at most 255.
    pub fn as_slice(&self) -> &[u8]
        ensures bytes { result.now ≡ self.now }
        ensures fits { length self.now ≤ 255 }
    {
        self.bytes.as_slice()
    }

    /// Returns equal bytes. It allocates nothing.
    pub fn copy(&self) -> Bytes
        ensures { result ≡ self.now }
    {
        let mut bytes = ArrayVec::new();
        bytes.try_extend_from_slice(self.as_slice()).unwrap();
        Bytes { bytes }
    }
}

/// Raw values are equal if their bytes are.
impl PartialEq for Bytes {
    ghost eq = { pointwise nat_eq };

    ghost laws = { partial_equiv_from_equiv nat_list_eq_equiv };

    fn eq(&self, other: &Self) -> bool {
        self.bytes == other.bytes
    }
}

impl Eq for Bytes {
    ghost laws = { nat_list_eq_equiv };
}

impl Hash for Bytes {
    ghost hash_input = { λ b. fed.slice fed.u8 b };

    ghost respects_eq = { λ s t e. ap (fed.slice fed.u8) ((bytes_decides s t).0 e) };

    fn hash<H: Hasher>(&self, state: &mut H) {
        self.as_slice().hash(state);
    }
}

/// Prints the bytes as a list of numbers.
impl fmt::Debug for Bytes {
    fn fmt<W: fmt::Write>(&self, f: &mut fmt::Formatter<W>) -> fmt::Result {
        write!(f, "{:?}", self.as_slice())
    }
}

/// An attribute's value. Values of different kinds are never equal.
#[derive(Debug, Drop, PartialEq, Eq, Hash)]
pub enum Value {
    Cstr(Text),
    Long(i32),
    Llng(i64),
    Mims(Text),
    Rawt(Bytes),
    Ulng(u32),
    Ullg(u64),
}

impl Value {
    /// Creates the `Long` value of a signed 32-bit number.
    pub fn int32(n: i32) -> Value
        ensures { result ≡ Value.Long n }
    {
        Self::Long(n)
    }

    /// Creates the `Llng` value of a signed 64-bit number.
    pub fn int64(n: i64) -> Value
        ensures { result ≡ Value.Llng n }
    {
        Self::Llng(n)
    }

    /// Creates the `Ulng` value of an unsigned 32-bit number.
    pub fn uint32(n: u32) -> Value
        ensures { result ≡ Value.Ulng n }
    {
        Self::Ulng(n)
    }

    /// Creates the `Ullg` value of an unsigned 64-bit number.
    pub fn uint64(n: u64) -> Value
        ensures { result ≡ Value.Ullg n }
    {
        Self::Ullg(n)
    }

    /// Creates the `Cstr` value of a text. Fails with `DataLength` if it has more than 255 bytes,
    /// or with `HasNul` if it contains a zero byte.
    pub fn text(text: &str) -> Result<Value, Refusal>
        ensures { result ≡ results.result_map_both Value.Cstr (λ e. e) (text_from text.now) }
    {
        Ok(Value::Cstr(Text::new(text)?))
    }

    /// Creates the `Mims` value of a MIME type. Fails with `DataLength` if it has more than 255
    /// bytes, or with `HasNul` if it contains a zero byte.
    pub fn mime(text: &str) -> Result<Value, Refusal>
        ensures { result ≡ results.result_map_both Value.Mims (λ e. e) (text_from text.now) }
    {
        Ok(Value::Mims(Text::new(text)?))
    }

    /// Creates the `Rawt` value of these bytes. Fails with `DataLength` if there are more than 255.
    pub fn raw(bytes: &[u8]) -> Result<Value, Refusal>
        ensures { result ≡ results.result_map_both Value.Rawt (λ e. e) (bytes_from bytes.now) }
    {
        Ok(Value::Rawt(Bytes::new(bytes)?))
    }

    /// Returns the value's kind.
    pub fn kind(&self) -> Kind
        ensures { result ≡ kind_of self.now }
    {
        match self {
            Value::Cstr(_) => Kind::Cstr,
            Value::Long(_) => Kind::Long,
            Value::Llng(_) => Kind::Llng,
            Value::Mims(_) => Kind::Mims,
            Value::Rawt(_) => Kind::Rawt,
            Value::Ulng(_) => Kind::Ulng,
            Value::Ullg(_) => Kind::Ullg,
        }
    }

    /// Returns an equal value. It allocates nothing.
    pub fn copy(&self) -> Value
        ensures { result ≡ self.now }
    {
        match self {
            Value::Cstr(text) => Value::Cstr(text.copy()),
            Value::Long(n) => Value::Long(*n),
            Value::Llng(n) => Value::Llng(*n),
            Value::Mims(text) => Value::Mims(text.copy()),
            Value::Rawt(bytes) => Value::Rawt(bytes.copy()),
            Value::Ulng(n) => Value::Ulng(*n),
            Value::Ullg(n) => Value::Ullg(*n),
        }
    }

    /// Compares two values of one kind.
    pub fn order(a: &Value, b: &Value) -> Ordering
        requires { kind_of a.now ≡ kind_of b.now }
        ensures { result ≡ value_cmp a.now b.now }
    {
        match (a, b) {
            (Value::Cstr(a), Value::Cstr(b)) => a.as_str().cmp(b.as_str()),
            (Value::Long(a), Value::Long(b)) => a.cmp(b),
            (Value::Llng(a), Value::Llng(b)) => a.cmp(b),
            (Value::Mims(a), Value::Mims(b)) => a.as_str().cmp(b.as_str()),
            (Value::Rawt(a), Value::Rawt(b)) => a.as_slice().cmp(&b.as_slice()),
            (Value::Ulng(a), Value::Ulng(b)) => a.cmp(b),
            (Value::Ullg(a), Value::Ullg(b)) => a.cmp(b),
            _ => Ordering::Equal,
        }
    }
}

/// A law about one value: it satisfies `IsValue`. A contract can't assume this of a borrowed value.
/// The function does nothing.
pub fn valid(value: &Value)
    ensures { IsValue value.now }
{
    match value {
        Value::Cstr(text) | Value::Mims(text) => {
            let _text = text.as_str();
        }
        Value::Long(n) => {
            let _n = *n;
        }
        Value::Llng(n) => {
            let _n = *n;
        }
        Value::Rawt(bytes) => {
            let _bytes = bytes.as_slice();
        }
        Value::Ulng(n) => {
            let _n = *n;
        }
        Value::Ullg(n) => {
            let _n = *n;
        }
    }
}

/// Returns an equal value. It allocates nothing.
impl Clone for Value {
    ghost is_clone = { λ a b. b ≡ a };

    fn clone(&self) -> Result<Value, AllocError> {
        Ok(self.copy())
    }
}
