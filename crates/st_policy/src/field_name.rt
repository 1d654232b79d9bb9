//! The fields of bodies.
ghost use Rattle.std.specs.Prelude.{◌≡◌};

/// A field of a request's body, as a refusal names it. A name in the path is named as the field that
/// would hold it.
#[derive(Clone, Copy, PartialEq, Eq, Debug)]
pub enum FieldName {
    After,
    Auths,
    Box,
    Budget,
    Digest,
    Id,
    Label,
    Limit,
    Namespace,
    Note,
    Nx,
    Ny,
    On,
    Period,
    Permission,
    Point,
    Table,
    User,
}

impl FieldName {
    ghost use Rattle.st_policy.specs.Refusals.{field_text};

    /// The name that bodies and replies write it by.
    pub fn name(self) -> &'static str
        ensures { result.now ≡ field_text self }
    {
        match self {
            FieldName::After => "after",
            FieldName::Auths => "auths",
            FieldName::Box => "box",
            FieldName::Budget => "budget",
            FieldName::Digest => "digest",
            FieldName::Id => "id",
            FieldName::Label => "label",
            FieldName::Limit => "limit",
            FieldName::Namespace => "namespace",
            FieldName::Note => "note",
            FieldName::Nx => "nx",
            FieldName::Ny => "ny",
            FieldName::On => "on",
            FieldName::Period => "period",
            FieldName::Permission => "permission",
            FieldName::Point => "point",
            FieldName::Table => "table",
            FieldName::User => "user",
        }
    }
}
