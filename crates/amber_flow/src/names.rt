//! The words of a workflow: kinds, signs, ids and names of columns.

ghost use Rattle.std.specs.Prelude.{◌≡◌};
ghost use Rattle.std.specs.List.{list_all};
ghost use Rattle.amber_rows.specs.Columns.{is_column_name, is_id, is_id_byte, is_letter};
ghost use Rattle.amber_flow.specs.Names.{column_kind_named, is_sink_kind, kind_named, sign_named};

use amber_rows::{Cmp, ColKind};

/// The kinds of operator.
#[derive(Clone, Copy)]
pub enum Kind {
    Scan,
    Filter,
    Project,
    Join,
    Group,
    Sink,
}

impl Kind {
    /// The kind that a word names.
    pub fn named(name: &str) -> Option<Kind>
        ensures { result ≡ kind_named name.now }
    {
        match name {
            "scan" => Some(Kind::Scan),
            "filter" => Some(Kind::Filter),
            "project" => Some(Kind::Project),
            "join" => Some(Kind::Join),
            "group" => Some(Kind::Group),
            "sink" => Some(Kind::Sink),
            _ => None,
        }
    }

    pub fn is_sink(self) -> bool
        ensures { result ≡ is_sink_kind self }
    {
        match self {
            Kind::Sink => true,
            Kind::Scan | Kind::Filter | Kind::Project | Kind::Join | Kind::Group => false,
        }
    }
}

/// The kind of column that a word names.
pub fn column_kind(name: &str) -> Option<ColKind>
    ensures { result ≡ column_kind_named name.now }
{
    match name {
        "int" => Some(ColKind::Int),
        "text" => Some(ColKind::Text),
        _ => None,
    }
}

/// The sign that a word is.
pub fn sign(name: &str) -> Option<Cmp>
    ensures { result ≡ sign_named name.now }
{
    match name {
        "=" => Some(Cmp::Eq),
        "!=" => Some(Cmp::Ne),
        "<" => Some(Cmp::Lt),
        "<=" => Some(Cmp::Le),
        ">" => Some(Cmp::Gt),
        ">=" => Some(Cmp::Ge),
        _ => None,
    }
}

fn is_lower(byte: u8) -> bool
    ensures { result ≡ is_letter byte }
{
    b'a' <= byte && byte <= b'z'
}

fn is_later_id_byte(byte: u8) -> bool
    ensures { result ≡ is_id_byte byte }
{
    is_lower(byte) || (b'0' <= byte && byte <= b'9') || byte == b'_'
}

fn are_later_id_bytes(bytes: &[u8]) -> bool
    ensures { result ≡ list_all is_id_byte bytes.now }
{
    bytes.iter().all(|byte| is_later_id_byte(*byte))
}

/// Whether a text may be an operator's id: a letter, and up to 31 letters, digits and `_`.
#[tactic(auto, unfolding(amber_rows::specs::Columns::is_id))]
pub fn is_operator_id(id: &str) -> bool
    ensures { result ≡ is_id id.now }
{
    match id.as_bytes() {
        [] => false,
        [first, later @ ..] => is_lower(*first) && are_later_id_bytes(later) && later.len() < 32,
    }
}

/// Whether a text may be the name of a column that an operator makes: it has 1 to 64 bytes.
pub fn may_name_column(name: &str) -> bool
    ensures { result ≡ is_column_name name.now }
{
    0 < name.len() && name.len() <= 64
}
