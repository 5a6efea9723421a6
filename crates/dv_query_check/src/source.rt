//! The sources of a query: its own table, and its links.

ghost use Rattle.std.specs.Prelude.{◌≡◌, map, option_map};
ghost use Rattle.dv_query_check.specs.Placed.{link_at, source_at};
ghost use Rattle.dv_query_check.specs.Resolved.{link_source, source_meant};

use crate::conditions::link_told_as;
use crate::placed::PlacedLink;
use dv_schema::Table;
use dv_value::Text;

/// A source of a query.
#[derive(Clone, Copy)]
pub(crate) struct Source<'a> {
    pub(crate) number: usize,
    /// Its table, if there is one of the name.
    pub(crate) table: Option<&'a Table>,
}

impl<'a> Source<'a> {
    /// A link as a source.
    #[tactic(auto, unfolding(crate::specs::Placed::link_at, crate::specs::Placed::source_at))]
    pub(crate) fn of(link: &PlacedLink<'a>) -> Source<'a>
        ensures { source_at result ≡ link_source (link_at link.now) }
    {
        Source {
            number: link.number,
            table: link.table,
        }
    }
}

/// The source whose column is named: the link whose rows are told under an alias, or without one
/// another source.
pub(crate) fn source_meant<'a>(
    own: Source<'a>,
    links: &[PlacedLink<'a>],
    alias: &Option<Text>,
) -> Option<Source<'a>>
    ensures { option_map source_at result
        ≡ source_meant (source_at own.entry) (map link_at links.now) alias.now }
{
    match alias {
        Some(alias) => match link_told_as(links, alias) {
            Some(link) => Some(Source::of(link)),
            None => None,
        },
        None => Some(own),
    }
}
