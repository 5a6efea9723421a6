//! What becomes of the rights of one grant.
ghost use Rattle.std.specs.Prelude.{◌≡◌};
ghost use Rattle.dv_shares.specs.Rights.{changed, are_same};

/// The direct and the inherited rights of a grant.
#[derive(Clone, Copy)]
pub(crate) struct Rights {
    pub direct: u32,
    pub inherited: u32,
}

/// What becomes of the rights of a grant.
#[derive(Clone, Copy)]
pub(crate) enum Change {
    /// A mask joins the direct rights.
    AddDirect(u32),
    /// A mask joins the inherited rights.
    AddInherited(u32),
    /// All rights go.
    Clear,
    /// The inherited rights go.
    ClearInherited,
}

/// The rights after a change.
#[tactic(auto, unfolding(crate::specs::Rights::changed))]
pub(crate) fn changed(change: Change, rights: Rights) -> Rights
    ensures { result ≡ changed change rights }
{
    let Rights { direct, inherited } = rights;
    match change {
        Change::AddDirect(mask) => Rights {
            direct: direct | mask,
            inherited,
        },
        Change::AddInherited(mask) => Rights {
            direct,
            inherited: inherited | mask,
        },
        Change::Clear => Rights {
            direct: 0,
            inherited: 0,
        },
        Change::ClearInherited => Rights {
            direct,
            inherited: 0,
        },
    }
}

/// Whether both rights are the same.
pub(crate) fn are_same(a: Rights, b: Rights) -> bool
    ensures { result ≡ are_same a b }
{
    a.direct == b.direct && a.inherited == b.inherited
}
