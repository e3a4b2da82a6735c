// The kinds of cases.

// What a case asks for.
#[derive(Clone, Copy, Debug, PartialEq, Eq)]
pub enum Kind {
    Compare,
    Reduce,
    Check,
    Lists,
    Community,
    LargeCommunity,
    Owners,
    Network,
    Groups,
    LargeGroups,
    Hierarchy,
    LargeHierarchy,
    TextHierarchy,
    Row,
    Joining,
    LargeJoining,
    Read,
    Long,
    Full,
    Surplus,
    Write,
}

// The words with which the cases of a kind begin. None begins with another's.
const WORDS: [(&[u8], Kind); 21] = [
    (b"compare", Kind::Compare),
    (b"reduce", Kind::Reduce),
    (b"check", Kind::Check),
    (b"lists", Kind::Lists),
    (b"community", Kind::Community),
    (b"large community", Kind::LargeCommunity),
    (b"owners", Kind::Owners),
    (b"network", Kind::Network),
    (b"groups", Kind::Groups),
    (b"large groups", Kind::LargeGroups),
    (b"hierarchy", Kind::Hierarchy),
    (b"large hierarchy", Kind::LargeHierarchy),
    (b"text hierarchy", Kind::TextHierarchy),
    (b"row", Kind::Row),
    (b"joining", Kind::Joining),
    (b"large joining", Kind::LargeJoining),
    (b"read", Kind::Read),
    (b"long", Kind::Long),
    (b"full", Kind::Full),
    (b"surplus", Kind::Surplus),
    (b"write", Kind::Write),
];

// A case that begins with the words of no kind.
#[derive(Clone, Copy, Debug, PartialEq, Eq)]
pub struct UnknownKind;

impl TryFrom<&[u8]> for Kind {
    type Error = UnknownKind;

    fn try_from(case: &[u8]) -> Result<Self, UnknownKind> {
        WORDS
            .iter()
            .find(|(words, _)| case.starts_with(words))
            .map(|(_, kind)| *kind)
            .ok_or(UnknownKind)
    }
}
