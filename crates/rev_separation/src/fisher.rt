//! Fisher's exact test, one-sided.
ghost use Rattle.std.specs.Prelude.{◌≡◌, ◌+◌, ◌<◌, ◌≤◌, ◌^◌};

// Weights above this are made small again, so that none grows past the largest number.
const LARGE: f64 = 1e200;

const SMALL: f64 = 1e-200;

/// How many of some builds have a property.
#[derive(Clone, Copy, Debug, PartialEq, Eq)]
pub struct Share {
    /// How many have it.
    pub having: u32,
    /// How many builds there are.
    pub all: u32,
    ghost within: { having ≤ all },
}

// By how much it is more or less likely that one more than a number of failing builds have the property.
fn odds(number: u32, having: u32, failing: u32, passing: u32) -> f64
    requires some { number ≤ having }
    requires within { number ≤ failing }
{
    let more = f64::from(having - number) * f64::from(failing - number);
    let next = f64::from(number) + 1.0;
    more / (next * (f64::from(passing) - f64::from(having) + next))
}

/// The chance that at least as many failing builds have a property as do, where nothing but luck says which builds have
/// it: Fisher's exact test, one-sided. It is 0 where it is below the least number of floating point. It takes time
/// linear in the number of failing builds.
///
/// The number of ways for each possible number of failing builds comes from that for one less, as a weight. So the
/// chance is the weight of the numbers that count among that of all.
pub fn chance(failing: Share, passing: Share) -> f64
    requires { failing.all + passing.all < 2 ^ 31 }
{
    let having = failing.having + passing.having;
    let least = having.saturating_sub(passing.all);
    let most = having.min(failing.all);
    let mut weight = 1.0;
    let mut counting = 0.0;
    let mut all = 0.0;
    for number in least..most + 1 {
        all += weight;
        if number >= failing.having {
            counting += weight;
        }
        weight *= odds(number, having, failing.all, passing.all);
        if weight > LARGE {
            weight *= SMALL;
            counting *= SMALL;
            all *= SMALL;
        }
    }
    counting / all
}

#[cfg(test)]
mod tests {
    use super::*;

    // A share of builds.
    fn of(having: u32, all: u32) -> Share
        requires { having ≤ all }
        ensures { result.all ≡ all }
    {
        Share { having, all }
    }

    // Whether a number is due, up to the last of fifteen digits.
    fn is_near(number: f64, due: f64) -> bool {
        let apart = if number < due {
            due - number
        } else {
            number - due
        };
        apart <= due * 1e-14
    }

    // The first one is on the page of scipy.stats.fisher_exact (alternative="greater"), the next two are Fisher's own:
    // his tea tasting and his twins. All others are the numbers nearest to the fractions of whole numbers.
    #[test]
    fn chances_are_those_of_tables(rt: HostRuntime) {
        assert!(rt; is_near(chance(of(6, 8), of(1, 5)), 0.08624708624708627));
        assert!(rt; is_near(chance(of(3, 4), of(1, 4)), 0.24285714285714285));
        assert!(rt; is_near(chance(of(10, 13), of(2, 17)), 0.00046518094336290503));
        assert!(rt; is_near(chance(of(4, 4), of(0, 4)), 0.014285714285714285));
        assert!(rt; is_near(chance(of(13, 13), of(0, 27)), 8.310325587520407e-11));
        assert!(rt; is_near(chance(of(9, 9), of(0, 31)), 3.657124400158456e-09));
        assert!(rt; is_near(chance(of(17, 17), of(3, 43)), 2.9440500435806558e-12));
        assert!(rt; is_near(chance(of(2, 40), of(1, 60)), 0.3505256648113791));
        assert!(rt; is_near(chance(of(30, 100), of(200, 900)), 0.054483711894670654));
        assert!(rt; is_near(chance(of(500, 500), of(0, 500)), 3.699753997814027e-300));
    }

    #[test]
    fn what_must_be_has_chance_1(rt: HostRuntime) {
        assert!(rt; is_near(chance(of(0, 5), of(0, 5)), 1.0));
        assert!(rt; is_near(chance(of(5, 5), of(5, 5)), 1.0));
        assert!(rt; is_near(chance(of(0, 0), of(3, 7)), 1.0));
        assert!(rt; is_near(chance(of(0, 10), of(5, 10)), 1.0));
    }

    #[test]
    fn a_chance_below_the_least_number_is_0(rt: HostRuntime) {
        assert!(rt; is_near(chance(of(1000, 1000), of(0, 9000)), 0.0));
    }
}
