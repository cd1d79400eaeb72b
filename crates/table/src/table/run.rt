// The run: how a table and a list are filled with the records of a program.
ghost use Rattle.std.specs.Prelude.{◌≡◌, ◌+◌, ◌*◌, ◌<◌, ◌≤◌, [], ◌∷◌, length};
ghost use Rattle.table.specs.Stamps.{Member, Moved};
ghost use Rattle.program.specs.View.{viewed};
ghost use Rattle.code.specs.Shown.{shown};
ghost use Rattle.trace.specs.Code.{main};
ghost use Rattle.table.specs.Runs.{MayRun, MayEnd, RunBegins, RunHasEnded, RunMakes, RunEnds, Keeps};
ghost use Rattle.table.specs.Anew.{Anew, HasRoom};

use crate::limit::Limit;
use crate::record::{Entry, Record, TooLarge};
use crate::table::Table;
use code::args::Args;
use code::next::Next;
use code::running::Running;
use order_list::list::OrderList;
use program::program::Program;
use program::value::Content;

/// A record at its place, and its stamp behind which the run goes on: its start when it has begun, its end when it has ended.
#[derive(Clone, Copy)]
pub(crate) struct Stamped {
    place: u16,
    stamp: u16,
}

/// What a run wrote to its destination, and its last stamp.
#[derive(Clone, Copy)]
pub(crate) struct Written {
    content: Content,
    cursor: u16,
}

/// A run of a program: the table and the list that it fills.
// The cursor is no field: a run that comes out too large has none, and its steps hand it on.
#[derive(Drop)]
pub(crate) struct Run<'a, O: OrderList> {
    table: &'a mut Table,
    list: &'a mut O,
    program: &'a Program,
}

/// A stamp directly behind the cursor.
fn stamp<O: OrderList>(list: &mut O, cursor: u16) -> u16
    requires member { Member (O.OrderList.order list.old) cursor }
    requires room { length (O.OrderList.order list.old) < O.OrderList.size list.old }
    ensures moved { Moved (O.OrderList.order list.old) cursor (result ∷ []) (O.OrderList.order list.new) result }
    ensures below { result < 4096 }
    ensures same { O.OrderList.size list.new ≡ O.OrderList.size list.old }
{
    match list.insert_after(cursor as usize) {
        Ok(member) => member as u16,
        Err(_) => unreachable(),
    }
}

impl<O: OrderList> Run<'_, O> {
    /// A record begins at a free place, with its start directly behind the cursor. Until it ends, its end is its start.
    fn begin(&mut self, entry: Entry, cursor: u16) -> Result<Stamped, TooLarge>
        requires { MayRun O.OrderList self.old cursor }
        ensures begins { RunBegins O.OrderList self.old self.new cursor entry result }
        ensures keeps { Keeps O.OrderList self.old self.new }
    {
        let place = self.table.take()?;
        let start = stamp(self.list, cursor);
        self.table.enter(
            place,
            Record {
                entry,
                start,
                end: start,
            },
        );
        self.table.own(start, place);
        Ok(Stamped {
            place,
            stamp: start,
        })
    }

    /// The record at a place ends, with its end directly behind the cursor; the modifiable of a NEW then holds the content.
    fn finish(&mut self, place: u16, content: Content, cursor: u16) -> u16
        requires { MayEnd O.OrderList self.old cursor place }
        ensures ended { RunHasEnded O.OrderList self.old self.new cursor place content result }
        ensures keeps { Keeps O.OrderList self.old self.new }
    {
        let end = stamp(self.list, cursor);
        let record = self.table.record(place);
        self.table.put(
            place,
            Record {
                entry: record.entry.wrote(content),
                start: record.start,
                end,
            },
        );
        self.table.own(end, place);
        end
    }

    /// Makes a modifiable: a NEW of the function with the arguments begins, the function runs, and the NEW ends.
    #[cycle(run)]
    fn make(&mut self, function: u8, args: Args, cursor: u16) -> Result<Stamped, TooLarge>
        requires { MayRun O.OrderList self.old cursor }
        ensures makes { RunMakes O.OrderList function args self.old self.new cursor result }
        ensures keeps { Keeps O.OrderList self.old self.new }
    {
        let entry = Entry::New {
            function,
            args,
            content: Content::Empty,
        };
        let begun = self.begin(entry, cursor)?;
        let inside = Running::enter(function, args);
        let wrote = self.run(inside, begun.place, begun.stamp)?;
        let end = self.finish(begun.place, wrote.content, wrote.cursor);
        Ok(Stamped {
            place: begun.place,
            stamp: end,
        })
    }

    /// Runs a function up to the write of its destination, the modifiable of the record at that place.
    #[cycle(run)]
    fn run(&mut self, running: Running, destination: u16, cursor: u16) -> Result<Written, TooLarge>
        requires { MayRun O.OrderList self.old cursor }
        ensures ends { RunEnds O.OrderList (shown (viewed self.old.program.now) running) destination self.old self.new cursor result }
        ensures keeps { Keeps O.OrderList self.old self.new }
    {
        match running.next(self.program) {
            Next::Writes(content) => Ok(Written { content, cursor }),
            Next::Makes {
                function,
                args,
                rest,
            } => {
                let made = self.make(function, args, cursor)?;
                let resumed = rest.resume(made.place);
                self.run(resumed, destination, made.stamp)
            }
            Next::Reads { source, reader } => {
                let taken = self.table.content(source);
                let entry = Entry::Read {
                    source,
                    reader,
                    taken,
                    destination,
                };
                let begun = self.begin(entry, cursor)?;
                let entered = reader.enter(taken);
                let wrote = self.run(entered, destination, begun.stamp)?;
                let end = self.finish(begun.place, wrote.content, wrote.cursor);
                Ok(Written {
                    content: wrote.content,
                    cursor: end,
                })
            }
        }
    }

    /// Runs the whole program: a NEW of function 0, given the inputs of RUN.
    // The code around function 0 is code like any other: by the meaning it then writes the empty list, to no destination.
    fn run_main(&mut self) -> Result<Written, TooLarge>
        requires { MayRun O.OrderList self.old 0 }
        ensures ends { RunEnds O.OrderList (main (viewed self.old.program.now)) 1024 self.old self.new 0 result }
        ensures keeps { Keeps O.OrderList self.old self.new }
    {
        let args = Args::of_run(self.program);
        let made = self.make(0, args, 0)?;
        Ok(Written {
            content: Content::Empty,
            cursor: made.stamp,
        })
    }
}

impl Table {
    /// Runs the program anew, and answers how many records were made; beyond the limit nothing stands.
    pub fn run_anew<O: OrderList>(
        &mut self,
        list: &mut O,
        program: &Program,
        limit: Limit,
    ) -> Result<u16, TooLarge>
        requires { HasRoom O.OrderList limit.value list.old }
        ensures anew { Anew O.OrderList (viewed program.now) limit.value self.old self.new list.new result }
        ensures same { O.OrderList.size list.new ≡ O.OrderList.size list.old }
    {
        self.clear(list, limit);
        let mut run = Run {
            table: self,
            list,
            program,
        };
        let outcome = run.run_main();
        match outcome {
            Ok(_) => Ok(limit.value() - self.room),
            Err(too_large) => {
                self.clear(list, limit);
                Err(too_large)
            }
        }
    }
}
