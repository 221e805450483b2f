//! The ranges that an answer walks, in a plain volume and in pages.
ghost use Rattle.be_pages.specs.Pages.{IsUnchanged};
ghost use Rattle.be_paged_reading.specs.Version.{IsVersion};
ghost use Rattle.be_volume.specs.Volume.{State};

use be_paged_reading::source;
use be_paged_test_tools::{Both, Forms};
use be_pages::Look;
use be_plan::volume_source;
use be_query::Query;
use be_value::Refusal;
use be_volume::Volume;
use be_ways::{Way, ways};
use std::alloc::Global;
use std::test::Fail;

/// The ranges, or why the query has no answer.
pub(crate) type Ways = Result<Vec<Way>, Refusal>;

/// The ranges that an answer from a plain volume walks.
pub(crate) fn ways_of_plain(alloc: Global, plain: &Volume, query: &Query) -> Ways {
    let (_, answer) = ways(alloc, query, volume_source(plain));
    answer
}

/// The ranges that an answer from pages walks, and the page reader. The plain volume isn't read: it
/// only names the volume that the pages encode.
fn ways_of_pages<L: Look>(
    alloc: Global,
    _plain: &Volume,
    look: L,
    page: u64,
    query: &Query,
) -> (L, Ways)
    ghost volume: { State }
    requires version { IsVersion (L.page_state look) (L.words look) page volume }
    ensures unchanged { IsUnchanged L.kept L.page_state L.words look result.0 }
{
    let source = source(look, page);
    let (source, answer) = ways(alloc, query, source);
    (source.into_look(), answer)
}

/// The same for the pages of both forms.
fn ways_of_both(alloc: Global, both: Both, query: &Query) -> (Both, Ways) {
    let Both { plain, room, page } = both;
    let (room, answer) = ways_of_pages(alloc, &plain, room, page, query);
    (Both { plain, room, page }, answer)
}

/// The same for the forms that a test holds.
pub(crate) fn ways_once(alloc: Global, forms: &mut Forms, query: &Query) -> Result<Ways, Fail> {
    let both = forms.take()?;
    let (both, answer) = ways_of_both(alloc, both, query);
    forms.both = Some(both);
    Ok(answer)
}

/// The same. If memory runs out, the query is asked again.
pub(crate) fn ways_of(alloc: Global, forms: &mut Forms, query: &Query) -> Result<Ways, Fail> {
    match ways_once(alloc, forms, query)? {
        Err(Refusal::OutOfMemory) => ways_once(alloc, forms, query),
        answer => Ok(answer),
    }
}
