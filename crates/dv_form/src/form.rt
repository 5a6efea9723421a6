//! What an object must look like, as data: forms of values, members with their exclusions, schemas.

ghost use Rattle.std.specs.Prelude.{◌≡◌};
ghost use Rattle.dv_form.specs.Schemas.{schema_of};

use crate::spelling::Spelling;

/// What the value of a member, or an item of a list, must look like. `R` names the schemas of objects.
#[derive(Clone, Copy)]
pub enum Form<R> {
    /// A value without parts.
    Value(Spelling),
    /// An object of raw values, under any names.
    RawValues,
    /// An object by its schema.
    Object(R),
    /// A list of as many values as there are spellings, each in its own.
    Tuple(&'static [Spelling]),
    /// A list of values, at most so many.
    Values(Spelling, Option<usize>),
    /// A list of objects, at most so many.
    Objects(R, Option<usize>),
    /// A list of tuples, at most so many.
    Tuples(&'static [Spelling], Option<usize>),
    /// A list of at least one integer of 32 bits, no two of them equal.
    DistinctIntegers,
}

/// What excludes a member: another member of its object.
#[derive(Clone, Copy)]
pub enum Exclusion {
    /// The member of this name is given too.
    Given(&'static str),
    /// The member of this name is this word.
    IsWord(&'static str, &'static str),
    /// The member of this name isn't this integer.
    IsNotInteger(&'static str, i64),
    /// The member of this name is the same id.
    IsSameId(&'static str),
}

/// A line of a schema: a member.
#[derive(Clone, Copy)]
pub struct Member<R> {
    pub name: &'static str,
    /// Whether the object must have it.
    pub needed: bool,
    pub form: Form<R>,
    /// It is excluded where one of these holds.
    pub excluded_by: &'static [Exclusion],
}

/// The further members that an object has under a word.
#[derive(Drop)]
pub struct Case<R: 'static> {
    pub word: &'static str,
    pub members: &'static [Member<R>],
}

/// The schema of an object.
#[derive(Drop)]
pub struct Schema<R: 'static> {
    /// The members that it has in any case, in the order in which they are looked at.
    pub members: &'static [Member<R>],
    /// The member whose word says what further members there are.
    pub decided_by: Option<&'static str>,
    pub cases: &'static [Case<R>],
}

/// A schema for each kind of object. A grammar may lead back to itself.
pub trait Grammar: Copy + 'static {
    ghost use Rattle.dv_form.specs.Forms.{Schema};

    ghost schemas: { Self → Schema Self };

    fn schema(self) -> Schema<Self>
        ensures { schema_of result ≡ schemas self };
}
