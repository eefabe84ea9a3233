//! The rankings of the operators of a plant.

/// The ranking of each operator of a plant, by the policy of its row. `$without_memory` leaves the caller, or goes on with another
/// operator, where an allocation fails.
///
/// It is a macro, since a function that makes a ranking may not hand it out.
macro_rules! rankings_of {
    ($alloc:expr, $plant:expr, $without_memory:expr) => {{
        let mut rankings = Vec::new($alloc);
        for row in $plant.rows() {
            let policy = row.get_fields().policy;
            let Ok(rank) = Box::new($alloc, move |input: grant_policy::RankInput| -> u8 {
                grant_policy::rank_by(policy, &input)
            }) else {
                $without_memory
            };
            let ranking = grant_policy::Ranking::new(row.get_fields().policy, rank);
            if rankings.push(ranking).is_err() {
                $without_memory
            }
        }
        rankings
    }};
}

pub(crate) use rankings_of;
