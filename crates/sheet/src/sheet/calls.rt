// The calls on a sheet.
ghost use Rattle.std.specs.Prelude.{◌≡◌};
ghost use Rattle.history.specs.Calls.{OPEN, POST, WITHDRAW, SETTLE, resting, unsettled, opened};
ghost use Rattle.history.specs.History.{a_pass};
ghost use Rattle.sheet.specs.Answers.{Admits, open_answer, rest_answer, settle_answer, HandsBack, SettleHandsBack, Serves, Settles};

use crate::fitting::fit;
use crate::pass::{OpenPass, UnsettledPass};
use crate::refusal::{Refusal, Refused};
use crate::settled::{Mark, NotSettled, Settled};
use crate::sheet::make::has_room;
use crate::sheet::{Sheet, State};
use order_list::list::OrderList;
use program::value::InputContent;

impl<O: OrderList> Sheet<O> {
    /// The pass, if it bears the sheet's number and goes with its state.
    // Number and state come beside the pass: a trait over the pass types would be made for this one function.
    fn admit<P>(&self, number: u16, state: State, pass: P) -> Result<P, Refused<P>>
        ensures { Admits self.now number state pass result }
    {
        if number == self.number && state == self.state {
            Ok(pass)
        } else {
            Err(Refused {
                refusal: Refusal::WrongPass,
                pass,
            })
        }
    }

    /// Opens the sheet for posts: spends the resting pass for an open one.
    pub fn open(&mut self, pass: UnsettledPass) -> Result<OpenPass, Refused<UnsettledPass>>
        ensures serves { Serves O.OrderList self.old (OPEN (a_pass (resting unsettled) pass.0)) (open_answer result) self.new }
        ensures back { HandsBack pass result }
    {
        let pass = self.admit(pass.0, State::Unsettled, pass)?;
        self.table.note_inputs();
        self.state = State::Open;
        Ok(pass.opened())
    }

    /// Sets an input of an open sheet to a number, the empty list, or a cell of two inputs.
    pub fn post(
        &mut self,
        pass: OpenPass,
        input: u16,
        content: InputContent,
    ) -> Result<OpenPass, Refused<OpenPass>>
        ensures serves { Serves O.OrderList self.old (POST (a_pass opened pass.0) input content) (open_answer result) self.new }
        ensures back { HandsBack pass result }
    {
        let pass = self.admit(pass.0, State::Open, pass)?;
        if let Err(refusal) = fit(&self.program, input, content) {
            return Err(Refused { refusal, pass });
        }
        self.table.post(input, content);
        Ok(pass)
    }

    /// Puts the inputs back as they were when the sheet was opened, and answers the sort of pass that was spent then.
    pub fn withdraw(&mut self, pass: OpenPass) -> Result<UnsettledPass, Refused<OpenPass>>
        ensures serves { Serves O.OrderList self.old (WITHDRAW (a_pass opened pass.0)) (rest_answer result) self.new }
        ensures back { HandsBack pass result }
    {
        let pass = self.admit(pass.0, State::Open, pass)?;
        self.table.put_inputs_back();
        self.state = State::Unsettled;
        Ok(pass.unsettled())
    }

    /// Settles an open sheet: runs the program anew on its inputs.
    pub fn settle(&mut self, pass: OpenPass) -> Result<Settled, NotSettled>
        ensures settles { Settles O.OrderList self.old (SETTLE (a_pass opened pass.0)) (settle_answer result) self.new }
        ensures back { SettleHandsBack pass result }
    {
        let pass = self.admit(pass.0, State::Open, pass)?;
        // A sheet that make made has room. It is tested again, since a type that says it could not be held in a struct that is
        // generic over the labelling of its list.
        if !has_room(self.list.capacity(), self.limit) {
            self.state = State::Unsettled;
            return Err(NotSettled::TooLarge(pass.unsettled()));
        }
        match self
            .table
            .run_anew(&mut self.list, &self.program, self.limit)
        {
            Ok(made) => {
                self.state = State::Settled;
                Ok(Settled {
                    mark: Mark::Anew,
                    reexecuted: 0,
                    made,
                    standing: made,
                    pass: pass.settled(),
                })
            }
            Err(_) => {
                self.state = State::Unsettled;
                Err(NotSettled::TooLarge(pass.unsettled()))
            }
        }
    }
}
