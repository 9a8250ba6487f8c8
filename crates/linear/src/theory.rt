// The theorems on dependence, recurrences and Hankel tables, each for every lawful field, named by
// functions.
ghost use Rattle.linear.specs.Hankel.{Tables};
ghost use Rattle.linear.specs.Krylov.{Dimension, KrylovDegree, MatricesLinear};
ghost use Rattle.linear.specs.Recurrence.{FirstWords, MasseyBound, MonicFromGen, RecursByGen};

pub fn more_vectors_than_coordinates_depend() -> u8
    ensures { Dimension }
{
    0
}

pub fn matrices_are_linear_maps() -> u8
    ensures { MatricesLinear }
{
    0
}

pub fn krylov_degree_is_at_most_the_dimension() -> u8
    ensures { KrylovDegree }
{
    0
}

pub fn connection_polynomials_are_recurrences() -> u8
    ensures same_lengths { RecursByGen }
    ensures monic { MonicFromGen }
    ensures massey { MasseyBound }
    ensures first_words { FirstWords }
{
    0
}

pub fn hankel_tables_tell_krylov_vectors() -> u8
    ensures { Tables }
{
    0
}
