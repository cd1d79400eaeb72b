// Walks of calls over both makes of order list, and the tags that stand along each list after them.
#![tactic(auto)]

use chained_list::chained::Chained;
use chained_list::labelling::Labelling;
use chained_list::member::Member;
use chained_list::renumbering::Renumbering;
use chained_list::tag_range::TagRange;
use order_list::list::OrderList;
use std::io;
use std::iter::successors;

/// How many tags of a list are written.
const SHOWN: usize = 90;

/// Removes what stands behind the base, and tells the newest member then.
fn remove_second<O: OrderList>(list: &mut O, last: usize) -> usize {
    let Some(second) = list.next(0) else {
        return last;
    };
    let _ = list.remove(second);
    if second == last { 0 } else { last }
}

/// Does the calls of a walk. The walk says behind which member call i inserts, where last is the newest; it removes where that is none.
fn go<O: OrderList, W: Fn(usize, usize) -> Option<usize>>(list: &mut O, walk: &W, calls: usize)
    requires { W.IsAlwaysCallable walk.now }
{
    let mut last = 0;
    for i in 0..calls {
        last = match walk(i, last) {
            Some(m) => list.insert_after(m).unwrap_or(last),
            None => remove_second(list, last),
        };
    }
}

/// Builds a list of one make in the places and does the calls of the walk.
fn walked<L: Labelling, W: Fn(usize, usize) -> Option<usize>>(
    places: &mut [Member],
    walk: &W,
    calls: usize,
)
    requires { W.IsAlwaysCallable walk.now }
{
    if let Ok(mut list) = Chained::<L>::new(places) {
        go(&mut list, walk, calls);
    }
}

/// One more tag in the sum over a list's tags.
fn with_tag(sum: u64, tag: u32) -> u64 {
    (sum % 1000000007 * 31 + tag as u64) % 1000000007
}

/// Writes the members' tags along the list.
// It goes along the list anew for the count, the sum and the tags, so that nothing is allocated.
fn tell(rt: &HostRuntime, places: &[Member], name: &str, calls: usize) -> io::Result<()> {
    let count = places.len();
    let along = || successors(places.first(), |member| places.get(member.behind()?)).take(count);
    let members = along().count();
    let sum = along().fold(0, |sum, member| with_tag(sum, member.tag));
    println!(rt; "{count} places, {calls} calls {name}: {members} members, sum {sum}")?;
    for member in along().take(SHOWN) {
        println!(rt; "{}", member.tag)?;
    }
    Ok(())
}

/// Does one walk over both makes.
fn both_makes<W: Fn(usize, usize) -> Option<usize>>(
    rt: &HostRuntime,
    places: &mut [Member],
    calls: usize,
    name: &str,
    walk: W,
) -> io::Result<()>
    requires { W.IsAlwaysCallable walk }
{
    walked::<Renumbering, W>(places, &walk, calls);
    tell(rt, places, name, calls)?;
    walked::<TagRange, W>(places, &walk, calls);
    tell(rt, places, name, calls)
}

/// The base and the newest member by turns.
fn by_turns(i: usize, last: usize) -> usize {
    if i % 2 == 0 { 0 } else { last }
}

/// Does each walk over both makes.
fn all_walks(rt: &HostRuntime, places: &mut [Member], calls: usize) -> io::Result<()> {
    both_makes(rt, places, calls, "at the base", |_, _| Some(0))?;
    both_makes(rt, places, calls, "at the end", |_, last| Some(last))?;
    both_makes(
        rt,
        places,
        calls,
        "by turns",
        |i, last| Some(by_turns(i, last)),
    )?;
    both_makes(rt, places, calls, "with removals", |i, last| {
        if i % 5 == 4 {
            None
        } else {
            Some(by_turns(i, last))
        }
    })
}

fn main(rt: HostRuntime) -> io::Result<()> {
    all_walks(&rt, &mut [Member::default(); 1], 3)?;
    all_walks(&rt, &mut [Member::default(); 2], 5)?;
    all_walks(&rt, &mut [Member::default(); 17], 40)?;
    all_walks(&rt, &mut [Member::default(); 90], 120)?;
    all_walks(&rt, &mut [Member::default(); 4096], 6000)
}
