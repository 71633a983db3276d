//! The numbers that nodes get.

ghost use Rattle.dt_model_laws.specs.LeastNumbers.{NumbersAreOne, NumbersAreThere};

/// There is one list of least free numbers.
pub fn least_numbers_are_one()
    ensures there { NumbersAreThere }
    ensures one { NumbersAreOne }
{}
