// Putting the questions of Close to polynomials, first to last, and making the tables that they need.
ghost use Rattle.polynomials.specs.Held.{held};
ghost use Rattle.tables.specs.Making.{StairsAsked, Made, MadeIn};

use crate::Tables;
use arrayvec::ArrayVec;
use field::Field;
use order::{Monomial, Order};
use polynomials::leading::ask_leads;
use polynomials::{JobFault, Polynomials};
use staircase::staircase;

// The questions before the last, and the staircase.
fn ask_stairs<O: Order>(
    order: &O,
    n: usize,
    polynomials: &Polynomials,
) -> Result<ArrayVec<Monomial, 48>, JobFault>
    ensures { StairsAsked (O.Order.meaning order.now) n (held polynomials.now) result }
{
    let leads = polynomials.leads();
    ask_leads(n, leads.as_slice())?;
    let stairs: ArrayVec<Monomial, 48> = staircase(order, n, leads.as_slice())?;
    polynomials.ask_inside(stairs.as_slice())?;
    Ok(stairs)
}

impl Tables {
    // Puts the tables of the polynomials of `n` variables into `place`, where all questions of Close get
    // a yes, and answers how many staircase monomials they have; or answers the first that gets a no, and
    // then may leave others there. Made where they stay, since each move copies them.
    pub fn make_in<F: Field, O: Order>(
        place: &mut Option<Tables>,
        field: &F,
        order: &O,
        n: usize,
        polynomials: &Polynomials,
    ) -> Result<usize, JobFault>
        ensures { MadeIn (F.Field.meaning field.now) (O.Order.meaning order.now) n (held polynomials.now) place.new result }
    {
        let stairs = ask_stairs(order, n, polynomials)?;
        let tables = place.insert(Tables::new());
        let filled = tables.fill(field, order, n, polynomials, stairs);
        if filled.is_err() || !tables.agree(field, n) {
            return Err(JobFault::Disagree);
        }
        Ok(tables.size())
    }

    // The tables of the polynomials of `n` variables, where all questions of Close get a yes; or the
    // first that gets a no.
    pub fn make<F: Field, O: Order>(
        field: &F,
        order: &O,
        n: usize,
        polynomials: &Polynomials,
    ) -> Result<Tables, JobFault>
        ensures { Made (F.Field.meaning field.now) (O.Order.meaning order.now) n (held polynomials.now) result }
    {
        let mut place = None;
        Tables::make_in(&mut place, field, order, n, polynomials)?;
        place.ok_or(JobFault::Disagree)
    }
}
