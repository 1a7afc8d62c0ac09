//! What an assignment asks of a table.
ghost use Rattle.std.specs.Prelude.{◌≡◌, ℕ};
ghost use Rattle.engine.specs.Acts.{demand_of, given, fresh};

use tokens::code::are_codes;
use values::value::Value;

/// What an assignment asks: is what is assigned within its bounds, does it fit the place, are the nodes of a new list free, and is it zero?
// Kept: four answers side by side, and no first refusal among them: the store's and the save stack's checks come between.
#[derive(Clone, Copy)]
pub struct Demand {
    pub bounded: bool,
    pub fits: bool,
    pub affordable: bool,
    pub zero: bool,
}

impl Demand {
    /// Of a value.
    pub fn of_value<V: Value>(value: &V, pool: &V::Pool, place: u32) -> Demand
        ensures { result ≡ demand_of V.Value.ops (given value.now) (V.Value.meaning pool.now) place }
    {
        Demand {
            bounded: value.in_bounds(),
            fits: V::is_register(place) && value.fits(place) && value.list_stands(pool),
            affordable: true,
            zero: value.is_zero(),
        }
    }

    /// Of a list that is to be made.
    pub fn of_list<V: Value>(list: &[u16], pool: &V::Pool, place: u32) -> Demand
        ensures { (b : ℕ) → result ≡ demand_of V.Value.ops (fresh list.now b) (V.Value.meaning pool.now) place }
    {
        Demand {
            bounded: are_codes(list),
            fits: V::is_register(place) && V::class(place).is_list(),
            affordable: list.is_empty() || list.len() < V::free_nodes(pool) as usize,
            zero: list.is_empty(),
        }
    }
}
