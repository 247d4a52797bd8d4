//! Which series are within the limits, and which pairs they declare, by the definitions alone.
ghost use Rattle.traffic_matrix.specs.Laws.{FirstMatricesAreInRange, GravityIsInRange, PairsStayInside, SentStays, SeriesAreInRange, TrafficIsInRange};

/// The series that the bytes of a file make for a network is within the limits.
pub fn series_are_in_range()
    ensures { SeriesAreInRange }
{}

/// The first matrix of a series that is within the limits has one demand for each declared pair, which is within the limit.
pub fn first_matrices_are_in_range()
    ensures { FirstMatricesAreInRange }
{}

/// A series that a seed draws is within the limits.
pub fn gravity_is_in_range()
    ensures { GravityIsInRange }
{}

/// A series within the limits is traffic, and so it is with any other one as its predictions.
pub fn traffic_is_in_range()
    ensures { TrafficIsInRange }
{}

/// Predictions of no further pair leave what is sent as it is.
pub fn sent_stays()
    ensures { SentStays }
{}

/// A matrix file without a row outside some pairs declares no other pair.
pub fn pairs_stay_inside()
    ensures { PairsStayInside }
{}
