// How far the encoders reach.

/// The most terms that a line of the direct encoder has: so many have few enough sets to try each.
pub const MOST_DIRECT_TERMS: usize = 12;

/// The most auxiliaries that a line of the order encoder takes.
pub const MOST_ORDER_AUXILIARIES: usize = 16_384;
