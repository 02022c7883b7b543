//! Types as they are written: a name, and modifiers, the innermost first.
ghost use Rattle.std.specs.Prelude.{◌≡◌, ◌++◌, ◌∷◌, [], Some, IsTrue, IsOk, IsSome, IfSome, MatchResult, option_map, option_copied, flat_map};
ghost use Rattle.std.specs.Str.{chars, encode_utf8_all};
ghost use Rattle.juniper_values.specs.Text.{Text};
ghost use Rattle.juniper_values.specs.TypeLiteral.{modifiers_of, outermost, is_list_modifier, is_non_null, is_list, is_common, name_unless_list, type_text, opening, closing};
ghost use Rattle.std.specs.Fmt.{DisplaysOnOk};

use juniper_tokens::text::{same_text, write_text};
use std::alloc::Global;
use std::fmt;
use std::marker::Model;

/// A modifier around a type (GraphQL specification, October 2021, section 2.11).
#[derive(Clone, Copy, Debug)]
pub enum TypeModifier {
    /// `!`
    NonNull,
    /// `[` and `]`: a list, with its length if it is known.
    List(Option<usize>),
}

impl PartialEq for TypeModifier {
    ghost use Rattle.juniper_values.specs.TypeLiteral.{same_modifier};
    ghost use Rattle.juniper_values.specs.laws.TypeLaws.{same_modifier-laws};

    ghost eq = { same_modifier };

    ghost laws = { same_modifier-laws };

    fn eq(&self, other: &TypeModifier) -> bool {
        match (self, other) {
            (TypeModifier::NonNull, TypeModifier::NonNull) => true,
            (TypeModifier::List(a), TypeModifier::List(b)) => a == b,
            _ => false,
        }
    }
}

impl Eq for TypeModifier {
    ghost use Rattle.juniper_values.specs.laws.TypeLaws.{same_modifier-equiv};

    ghost laws = { same_modifier-equiv };
}

/// A list of modifiers, the innermost first.
#[derive(Debug, Drop)]
pub enum TypeModifiers {
    /// Modifiers that take no memory.
    Static(&'static [TypeModifier]),
    /// Any modifiers.
    Dynamic(Vec<TypeModifier>),
}

/// No modifiers.
impl Default for TypeModifiers {
    ghost is_default = { λ ms. modifiers_of ms ≡ [] };

    fn default() -> Self {
        TypeModifiers::Static(&[])
    }
}

static NON_NULL: [TypeModifier; 1] = [TypeModifier::NonNull];

static LIST: [TypeModifier; 1] = [TypeModifier::List(None)];

static NON_NULL_LIST: [TypeModifier; 2] = [TypeModifier::NonNull, TypeModifier::List(None)];

impl TypeModifiers {
    /// The modifiers as a slice.
    pub fn as_slice(&self) -> &[TypeModifier]
        ensures { result.now ≡ modifiers_of self.now }
    {
        match self {
            TypeModifiers::Static(modifiers) => *modifiers,
            TypeModifiers::Dynamic(modifiers) => modifiers.as_slice(),
        }
    }

    // The list with one more modifier at its end, or as it was if memory runs out.
    fn wrapped(self, alloc: Global, outer: TypeModifier) -> Result<TypeModifiers, TypeModifiers>
        ensures value { MatchResult result
            (λ ms. modifiers_of ms ≡ modifiers_of self ++ outer ∷ [])
            (λ ms. modifiers_of ms ≡ modifiers_of self) }
        ensures succeeds { IsTrue (is_common (modifiers_of self ++ outer ∷ [])) → IsOk result }
    {
        if let Some(modifiers) = common(self.as_slice(), outer) {
            return Ok(TypeModifiers::Static(modifiers));
        }
        match self {
            TypeModifiers::Static(modifiers) => match grown(alloc, modifiers, outer) {
                Some(modifiers) => Ok(TypeModifiers::Dynamic(modifiers)),
                None => Err(TypeModifiers::Static(modifiers)),
            },
            TypeModifiers::Dynamic(modifiers) => {
                let mut modifiers = modifiers;
                match modifiers.push(outer) {
                    Ok(()) => Ok(TypeModifiers::Dynamic(modifiers)),
                    Err(_) => Err(TypeModifiers::Dynamic(modifiers)),
                }
            }
        }
    }
}

// The modifiers of `T!`, `[T]` or `[T!]`, if these are they.
fn common(inner: &[TypeModifier], outer: TypeModifier) -> Option<&'static [TypeModifier]>
    ensures value { IfSome result (λ ms. ms.now ≡ inner.now ++ outer ∷ []) }
    ensures found { IsTrue (is_common (inner.now ++ outer ∷ [])) → IsSome result }
{
    match (inner, outer) {
        ([], TypeModifier::NonNull) => Some(&NON_NULL),
        ([], TypeModifier::List(None)) => Some(&LIST),
        ([TypeModifier::NonNull], TypeModifier::List(None)) => Some(&NON_NULL_LIST),
        _ => None,
    }
}

fn grown(alloc: Global, inner: &[TypeModifier], outer: TypeModifier) -> Option<Vec<TypeModifier>>
    ensures { IfSome result (λ ms. ms.items ≡ inner.now ++ outer ∷ []) }
{
    let mut modifiers = Vec::with_capacity(alloc, inner.len() + 1).ok()?;
    modifiers.extend_from_slice(inner).ok()?;
    modifiers.push(outer).ok()?;
    Some(modifiers)
}

fn is_list_modifier(modifier: &TypeModifier) -> bool
    ensures { result ≡ is_list_modifier modifier.now }
{
    match modifier {
        TypeModifier::NonNull => false,
        TypeModifier::List(_) => true,
    }
}

/// The name that a type literal holds.
pub trait NameText {
    // The characters of the name.
    ghost name_text: { Self → Text };

    /// The name.
    fn text(&self) -> &str
        ensures { chars result.now ≡ name_text self.now };
}

impl NameText for &str {
    ghost name_text = { λ s. chars s.now };

    fn text(&self) -> &str {
        *self
    }
}

impl NameText for String {
    ghost use Rattle.juniper_values.specs.View.{text_of};

    ghost name_text = { text_of };

    fn text(&self) -> &str {
        self.as_str()
    }
}

/// A type: a name within any number of list types, each of which may be non-null (GraphQL specification, October 2021,
/// section 2.11).
#[derive(Debug, Drop)]
pub struct TypeLiteral<N> {
    name: N,
    modifiers: TypeModifiers,
}

/// A type: a name within any number of list types, each of which may be non-null.
pub type Type<N> = TypeLiteral<N>;

impl<N> Model for TypeLiteral<N> {
    ghost use Rattle.juniper_values.specs.TypeLiteral.{TypeShape, modifiers_of};

    ghost Value = { TypeShape N };

    ghost view = { λ t. record { name = t.name; modifiers = modifiers_of t.modifiers } };
}

impl<N: NameText + Drop> TypeLiteral<N> {
    /// The type of this name, without modifiers.
    pub fn nullable(name: N) -> Self
        ensures { result ≡ record { name = name; modifiers = [] } }
    {
        TypeLiteral {
            name,
            modifiers: TypeModifiers::default(),
        }
    }

    /// The list type of this type, with that length, if one is given.
    ///
    /// If memory runs out, returns the type unchanged. `[T]` and `[T!]` without a length need no memory.
    pub fn wrap_list(self, alloc: Global, size: Option<usize>) -> Result<Self, Self>
        ensures value { MatchResult result
            (λ t. t ≡ record { name = self.name; modifiers = self.modifiers ++ TypeModifier.List size ∷ [] })
            (λ t. t ≡ self) }
        ensures succeeds { IsTrue (is_common (self.modifiers ++ TypeModifier.List size ∷ [])) → IsOk result }
    {
        self.wrap(alloc, TypeModifier::List(size))
    }

    /// The non-null type of this type.
    ///
    /// If memory runs out, returns the type unchanged. `T!` needs no memory.
    pub fn wrap_non_null(self, alloc: Global) -> Result<Self, Self>
        ensures value { MatchResult result
            (λ t. t ≡ record { name = self.name; modifiers = self.modifiers ++ TypeModifier.NonNull ∷ [] })
            (λ t. t ≡ self) }
        ensures succeeds { IsTrue (is_common (self.modifiers ++ TypeModifier.NonNull ∷ [])) → IsOk result }
    {
        self.wrap(alloc, TypeModifier::NonNull)
    }

    fn wrap(self, alloc: Global, outer: TypeModifier) -> Result<Self, Self>
        ensures value { MatchResult result
            (λ t. t ≡ record { name = self.name; modifiers = self.modifiers ++ outer ∷ [] })
            (λ t. t ≡ self) }
        ensures succeeds { IsTrue (is_common (self.modifiers ++ outer ∷ [])) → IsOk result }
    {
        let TypeLiteral { name, modifiers } = self;
        match modifiers.wrapped(alloc, outer) {
            Ok(modifiers) => Ok(TypeLiteral { name, modifiers }),
            Err(modifiers) => Err(TypeLiteral { name, modifiers }),
        }
    }

    /// The name of a type that contains no list type, or None.
    pub fn name(&self) -> Option<&str>
        ensures { option_map (λ s. chars s.now) result ≡ name_unless_list (N.name_text self.now.name) self.now.modifiers }
    {
        if self.is_list() {
            None
        } else {
            Some(self.innermost_name())
        }
    }

    /// The name within all list types.
    pub fn innermost_name(&self) -> &str
        ensures { chars result.now ≡ N.name_text self.now.name }
    {
        self.name.text()
    }

    /// The outermost modifier, if there is one.
    pub fn modifier(&self) -> Option<&TypeModifier>
        ensures { option_copied result ≡ outermost self.now.modifiers }
    {
        self.modifiers().last()
    }

    /// The modifiers, the innermost first.
    pub fn modifiers(&self) -> &[TypeModifier]
        ensures { result.now ≡ self.now.modifiers }
    {
        self.modifiers.as_slice()
    }

    /// Whether the outermost modifier is `!`.
    pub fn is_non_null(&self) -> bool
        ensures { result ≡ is_non_null self.now.modifiers }
    {
        match self.modifier() {
            Some(TypeModifier::NonNull) => true,
            _ => false,
        }
    }

    /// Whether the type is or contains a list type. So `[T]!` is one.
    pub fn is_list(&self) -> bool
        ensures { result ≡ is_list self.now.modifiers }
    {
        self.modifiers()
            .iter()
            .any(|modifier| is_list_modifier(modifier))
    }
}

/// Types are equal if the texts of their names and their modifiers are.
impl<N: NameText> PartialEq for TypeLiteral<N> {
    ghost use Rattle.juniper_values.specs.TypeLiteral.{same_type};
    ghost use Rattle.juniper_values.specs.laws.TypeLaws.{same_type-laws};

    ghost eq = { same_type N.name_text };

    ghost laws = { same_type-laws N.name_text };

    fn eq(&self, other: &TypeLiteral<N>) -> bool {
        same_text(self.name.text(), other.name.text())
            && self.modifiers.as_slice() == other.modifiers.as_slice()
    }
}

impl<N: NameText> Eq for TypeLiteral<N> {
    ghost use Rattle.juniper_values.specs.laws.TypeLaws.{same_type-equiv};

    ghost laws = { same_type-equiv N.name_text };
}

/// Displays the type as it is written, without the lengths of lists.
impl<N: NameText + Drop> fmt::Display for TypeLiteral<N> {
    ghost output = { λ t. Some (encode_utf8_all (type_text (N.name_text t.name) t.modifiers)) };

    fn fmt<W: fmt::Write>(&self, f: &mut fmt::Formatter<W>) -> fmt::Result {
        let modifiers = self.modifiers.as_slice();
        write_openings(f, modifiers)?;
        write_text(f, self.name.text())?;
        write_closings(f, modifiers)
    }
}

// Writes the part of the modifiers before the name.
fn write_openings<W: fmt::Write>(
    f: &mut fmt::Formatter<W>,
    modifiers: &[TypeModifier],
) -> fmt::Result
    ensures { DisplaysOnOk W.write_str_gives f.old result (Some (encode_utf8_all (flat_map opening modifiers.now))) f.new }
{
    for modifier in modifiers {
        f.write_str(opening(modifier))?;
    }
    Ok(())
}

// Writes the part of the modifiers after the name.
fn write_closings<W: fmt::Write>(
    f: &mut fmt::Formatter<W>,
    modifiers: &[TypeModifier],
) -> fmt::Result
    ensures { DisplaysOnOk W.write_str_gives f.old result (Some (encode_utf8_all (flat_map closing modifiers.now))) f.new }
{
    for modifier in modifiers {
        f.write_str(closing(modifier))?;
    }
    Ok(())
}

fn opening(modifier: &TypeModifier) -> &'static str
    ensures { result.now ≡ opening modifier.now }
{
    match modifier {
        TypeModifier::NonNull => "",
        TypeModifier::List(_) => "[",
    }
}

fn closing(modifier: &TypeModifier) -> &'static str
    ensures { result.now ≡ closing modifier.now }
{
    match modifier {
        TypeModifier::NonNull => "!",
        TypeModifier::List(_) => "]",
    }
}
