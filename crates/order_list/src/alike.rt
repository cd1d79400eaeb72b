// Lists that were given the same calls cannot be told apart.
ghost use Rattle.std.specs.Prelude.{◌≡◌};
ghost use Rattle.order_list.specs.Alike.{agrees, Agreed, Alike};

use crate::list::OrderList;

/// The two numbers that one member has in two lists.
#[derive(Clone, Copy)]
pub struct Twin {
    pub left: usize,
    pub right: usize,
}

/// Whether two lists answer alike, each by its own numbers: `before` of x and y, and whether a member stands behind x.
/// Lists that were given the same calls, and answered those alike, do; nothing tells them apart.
#[tactic(auto, using(crate::proofs::Twins::agreed_then, crate::proofs::Twins::together_alike))]
pub fn agree<A: OrderList, B: OrderList>(one: &A, other: &B, x: Twin, y: Twin) -> bool
    ensures answer { result ≡ agrees (A.OrderList.order one.now) (B.OrderList.order other.now) x y }
    ensures agreed { Agreed (A.OrderList.size one.now) (B.OrderList.size other.now) (A.OrderList.order one.now) (B.OrderList.order other.now) x y result }
    ensures alike { Alike (A.OrderList.size one.now) (B.OrderList.size other.now) (A.OrderList.order one.now) (B.OrderList.order other.now) }
{
    one.before(x.left, y.left) == other.before(x.right, y.right)
        && one.next(x.left).is_some() == other.next(x.right).is_some()
}
