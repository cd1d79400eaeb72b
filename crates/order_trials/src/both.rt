// The same calls on any two order lists.
ghost use Rattle.std.specs.Prelude.{◌≡◌, List};
ghost use Rattle.order_list.specs.declared.alike.Twin.{Twin as TwinOf};
ghost use Rattle.order_list.specs.Alike.{Together, Same};
ghost use Rattle.order_trials.specs.Steps.{Answered, Continued};

use order_list::alike::Twin;
use order_list::list::OrderList;
use order_list::refusal::ListRefusal;

/// Why two lists did not both insert: both refused, or only one of them.
#[derive(Clone, Copy, PartialEq, Eq, Debug)]
pub enum NotBoth {
    Refused(ListRefusal),
    Differing,
}

/// Two lists that are given the same calls.
#[derive(Drop)]
pub struct Pair<'a, 'b, A, B> {
    pub one: &'a mut A,
    pub other: &'b mut B,
}

impl<A: OrderList, B: OrderList> Pair<'_, '_, A, B> {
    /// Inserts behind one member in both lists, and tells the new member's two numbers. Lists of one capacity that were given the same
    /// calls do not differ, and go on alike.
    #[tactic(auto, using(crate::proofs::Stepping::both_done))]
    pub fn insert_in_both(&mut self, m: Twin) -> Result<Twin, NotBoth>
        ensures lists { (self.new.one.ghost_name ≡ self.old.one.ghost_name) × (self.new.other.ghost_name ≡ self.old.other.ghost_name) }
        ensures sizes { (A.OrderList.size self.new.one.now ≡ A.OrderList.size self.old.one.now) × (B.OrderList.size self.new.other.now ≡ B.OrderList.size self.old.other.now) }
        ensures done { Answered (A.OrderList.size self.old.one.now) (B.OrderList.size self.old.other.now) (A.OrderList.order self.old.one.now) (B.OrderList.order self.old.other.now) m (A.OrderList.order self.new.one.now) (B.OrderList.order self.new.other.now) result }
        ensures alike { (ns : List TwinOf) → A.OrderList.size self.old.one.now ≡ B.OrderList.size self.old.other.now → Together (A.OrderList.size self.old.one.now) (B.OrderList.size self.old.other.now) ns (A.OrderList.order self.old.one.now) (B.OrderList.order self.old.other.now) → Same ns (A.OrderList.order self.old.one.now) (B.OrderList.order self.old.other.now) m.left m.right → Continued (A.OrderList.size self.old.one.now) (B.OrderList.size self.old.other.now) ns (A.OrderList.order self.new.one.now) (B.OrderList.order self.new.other.now) result }
    {
        match (
            self.one.insert_after(m.left),
            self.other.insert_after(m.right),
        ) {
            (Ok(left), Ok(right)) => Ok(Twin { left, right }),
            (Err(refusal), Err(_)) => Err(NotBoth::Refused(refusal)),
            (Ok(_), Err(_)) => Err(NotBoth::Differing),
            (Err(_), Ok(_)) => Err(NotBoth::Differing),
        }
    }
}
