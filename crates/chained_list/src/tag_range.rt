// The tag-range make: tags below 2^32 that rise along the list, spread out where there is none between two members.
ghost use Rattle.std.specs.Prelude.{◌≡◌, ◌+◌, ◌-◌, ◌*◌, ◌/◌, ◌<◌, ◌≤◌, true, length};
ghost use Rattle.order_list.specs.Refusals.{most_places};
ghost use Rattle.order_list.specs.Order.{Inserted, has};
ghost use Rattle.chained_list.specs.Tags.{tag_limit, among, behind_tag, tags_after_insert, SmallestLoose};
ghost use Rattle.chained_list.specs.Chain.{Holds, order, tag_of, tags as tagsIn, tagged};
ghost use Rattle.chained_list.specs.Links.{link_of};
ghost use Rattle.chained_list.specs.Contents.{InsertedPlaces};
ghost use Rattle.chained_list.specs.Spreading.{FirstFrom, Spreadable, LooseBlock, SpreadOut, RoomMade};

use crate::chained::Chained;
use crate::labelling::Labelling;
use crate::links::splice;
use crate::member::Member;
use crate::places::Places;
use order_list::refusal::ListRefusal;

/// Tags that halve the range between two members.
pub struct TagRange;

/// The order list that spreads tags.
pub type TagRangeList<'a> = Chained<'a, TagRange>;

/// Tags are below 2^32.
const TAG_LIMIT: u64 = 4294967296;

/// The lowest level of blocks: a block of level i has 2^i tags.
const LOWEST_LEVEL: u32 = 4;

/// The highest level, whose one block has all tags.
const HIGHEST_LEVEL: u32 = 32;

impl Labelling for TagRange {
    ghost after = { tags_after_insert };

    // A method that promises one thing more says all that its trait has it say.
    fn insert_in(places: &mut Places<'_>, m: usize) -> Result<usize, ListRefusal>
        ensures done { Inserted (length places.old.members.now) (order places.old.members.now) m result (order places.new.members.now) }
        ensures placed { InsertedPlaces tags_after_insert places.old.members.now (link_of places.old.free) m result places.new.members.now (link_of places.new.free) }
        ensures same { length places.new.members.now ≡ length places.old.members.now }
        ensures lent { places.new.members.ghost_name ≡ places.old.members.ghost_name }
        ensures smallest { SmallestLoose (tagged places.old.members.now) m }
    {
        let n = places.vacancy(m)?;
        make_room(places, m);
        let tag = halfway(places.members[m].tag as u64, tag_behind(places, m));
        places.free = splice(places.members, m, n, tag);
        Ok(n)
    }
}

/// The tag halfway from one up to the next.
fn halfway(tag: u64, behind: u64) -> u32
    requires { (tag ≤ behind) × (tag + (behind - tag) / 2 < tag_limit) }
    ensures { result ≡ tag + (behind - tag) / 2 }
{
    tag.midpoint(behind) as u32
}

/// The tags of a block, and the members that have them: how many, and which is first.
#[derive(Clone, Copy)]
struct Block {
    first: usize,
    count: u64,
    start: u64,
    width: u64,
}

// These ask that m is a member: a view of the places and a member would be built anew for each member that a walk comes to.
/// The first member with a tag of start or more, looked for from m back.
fn first_from(places: &Places<'_>, m: usize, start: u64) -> usize
    requires member { has (order places.now.members.now) m ≡ true }
    requires low { start ≤ tag_of places.now.members.now m }
    ensures { FirstFrom places.now.members.now start m result }
{
    let mut at = m;
    while at != 0 {
        let before = places.members[at].previous as usize;
        let tag = places.members[before].tag as u64;
        if tag < start {
            return at;
        }
        at = before;
    }
    at
}

/// How many members from the first on have tags below end; the first has.
fn count_to(places: &Places<'_>, first: usize, end: u64) -> u64
    requires member { has (order places.now.members.now) first ≡ true }
    requires high { tag_of places.now.members.now first < end }
    requires top { end ≤ tag_limit }
    ensures { result ≡ among (tag_of places.now.members.now first) end (tagsIn places.now.members.now) }
{
    // Counted by hand: the count of a `take_while` over `successors` got no proof.
    let mut at = first;
    let mut count = 1u64;
    while tag_behind(places, at) < end {
        at = places.members[at].next as usize;
        count += 1;
    }
    count
}

/// The smallest loose block that contains m's tag.
fn loose_block(places: &Places<'_>, m: usize) -> Block
    requires { has (order places.now.members.now) m ≡ true }
    ensures { LooseBlock places.now.members.now m result.first result.start result.width result.count }
{
    let tag = places.members[m].tag as u64;
    for level in LOWEST_LEVEL..=HIGHEST_LEVEL {
        let width = 2u64.pow(level);
        let start = tag / width * width;
        let first = first_from(places, m, start);
        let count = count_to(places, first, start + width);
        if count * width <= 3u64.pow(level) {
            return Block {
                first,
                count,
                start,
                width,
            };
        }
    }
    unreachable()
}

/// Gives the block's members evenly spread tags.
// It takes the lent slice itself, as the links do.
fn spread_out(members: &mut [Member], block: Block)
    requires holds { Holds members.old (order members.old) }
    requires few { length members.old ≤ most_places }
    requires ready { Spreadable members.old block.first block.start block.width block.count }
    ensures { SpreadOut members.old members.new block.start block.width }
{
    // The members of a block follow one another by their links, and not in the slice.
    let mut at = block.first;
    for j in 0..block.count {
        members[at].tag = (block.start + j * block.width / block.count) as u32;
        at = members[at].next as usize;
    }
}

/// The tag of the member behind m, or 2^32 behind the last.
fn tag_behind(places: &Places<'_>, m: usize) -> u64
    requires { has (order places.now.members.now) m ≡ true }
    ensures { result ≡ behind_tag (tagged places.now.members.now) m }
{
    match places.members[m].behind() {
        Some(next) => places.members[next].tag as u64,
        None => TAG_LIMIT,
    }
}

/// Spreads members if there is no tag between m's and the next.
fn make_room(places: &mut Places<'_>, m: usize)
    requires { has (order places.old.members.now) m ≡ true }
    ensures free { places.new.free ≡ places.old.free }
    ensures lent { places.new.members.ghost_name ≡ places.old.members.ghost_name }
    ensures made { RoomMade places.old.members.now places.new.members.now m }
{
    let tag = places.members[m].tag as u64;
    if tag_behind(places, m) - tag < 2 {
        let block = loose_block(places, m);
        spread_out(places.members, block);
    }
}
