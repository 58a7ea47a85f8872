//! Jobs go through relays.
ghost use Rattle.std.specs.Prelude.{◌≡◌, ◌<◌, false, length, map, All, IfOk};
ghost use Rattle.relay.specs.Places.{numbers_to};
ghost use Rattle.relay_tests.specs.Countdowns.{number_of, is_over, CanBeCounted};

use crate::countdown::{Countdown, Counting};
use m2_base::Memory;
use relay::{do_all, finish, work_at_once};
use std::alloc::Global;
use std::test::Fail;

/// The job with this number, of so many turns. The first one waits for none.
fn job(number: u32, turns: u32, after: u32) -> Countdown
    requires { 0 < turns }
    ensures number { number_of result ≡ number }
    ensures undone { is_over result ≡ false }
    ensures can { CanBeCounted result }
{
    Countdown {
        number,
        left: turns,
        after,
        told: number == 1,
        turns: 0,
        waits: 0,
        by: None,
    }
}

/// Three jobs of so many turns, of which the second and the third wait for others.
fn jobs(alloc: Global, turns: u32, second: u32, third: u32) -> Result<Vec<Countdown>, Memory>
    requires turns { 0 < turns }
    ensures count { IfOk result (λ jobs. length jobs.items ≡ 3) }
    ensures order { IfOk result (λ jobs. map number_of jobs.items ≡ numbers_to 3) }
    ensures undone { IfOk result (λ jobs. All (λ job. is_over job ≡ false) jobs.items) }
    ensures can { IfOk result (λ jobs. All CanBeCounted jobs.items) }
{
    let jobs = vec![in alloc;
        job(1, turns, 0),
        job(2, turns, second),
        job(3, turns, third),
    ]?;
    Ok(jobs)
}

/// Whether each of the three jobs is in its place, and done.
fn all_over(jobs: &[Countdown]) -> bool {
    match jobs {
        [one, two, three] => {
            (one.number, two.number, three.number) == (1, 2, 3)
                && (one.left, two.left, three.left) == (0, 0, 0)
        }
        _ => false,
    }
}

/// In how many turns each job got on, in how many it had to wait, and who made the last in which it got on.
fn turns_of(jobs: &[Countdown]) -> Option<[(u32, u32, Option<u32>); 3]> {
    match jobs {
        [one, two, three] => Some([turns(one), turns(two), turns(three)]),
        _ => None,
    }
}

fn turns(job: &Countdown) -> (u32, u32, Option<u32>) {
    (job.turns, job.waits, job.by)
}

/// All jobs come back in their order, and each is done, with any number of workers. Where the caller finds no memory
/// either, there is no answer but that.
#[test]
fn all_are_done(rt: HostRuntime) -> Result<(), Fail> {
    let alloc = rt.alloc();
    for workers in [1, 2, 8, 64] {
        let three = jobs(alloc, 3, 3, 0)?;
        let done = do_all(&rt, alloc, &Counting::new(0, 0), three, workers)?;
        assert!(rt; all_over(&done));
        let three = jobs(alloc, 2, 0, 0)?;
        assert!(rt; do_all(&rt, alloc, &Counting::new(2, 65), three, workers).is_err());
    }
    Ok(())
}

/// A job that waits for another one is put back, and comes to its end once the other has.
#[test]
fn waits_for_another(rt: HostRuntime) -> Result<(), Fail> {
    let alloc = rt.alloc();
    let three = jobs(alloc, 1, 3, 0)?;
    let left = work_at_once(&rt, alloc, &Counting::new(0, 0), three, 1)?;
    assert!(rt; all_over(&left));
    let wanted = [(1, 0, Some(0)), (1, 1, Some(0)), (1, 0, Some(0))];
    assert_eq!(rt; turns_of(&left), Some(wanted));
    Ok(())
}

/// Jobs that wait for one another get on as far as they can. The caller ends them.
#[test]
fn wait_for_one_another(rt: HostRuntime) -> Result<(), Fail> {
    let alloc = rt.alloc();
    let counting = Counting::new(0, 0);
    let three = jobs(alloc, 2, 3, 2)?;
    let mut left = work_at_once(&rt, alloc, &counting, three, 1)?;
    let before = turns_of(&left).map(|[one, two, three]| [one.0, two.0, three.0]);
    assert_eq!(rt; before, Some([1, 0, 0]));
    finish(&counting, 1, left.as_mut_slice())?;
    assert!(rt; all_over(&left));
    let by = turns_of(&left).map(|[one, two, three]| [one.2, two.2, three.2]);
    assert_eq!(rt; by, Some([Some(0), Some(1), Some(1)]));
    Ok(())
}

/// A turn for which there is no memory ends the work of its worker. The caller goes on where it finds some.
#[test]
fn ends_without_memory(rt: HostRuntime) -> Result<(), Fail> {
    let alloc = rt.alloc();
    let counting = Counting::new(2, 1);
    let three = jobs(alloc, 1, 0, 0)?;
    let left = work_at_once(&rt, alloc, &counting, three, 1)?;
    assert_eq!(rt;
        turns_of(&left),
        Some([(1, 0, Some(0)), (0, 0, None), (0, 0, None)])
    );
    let three = jobs(alloc, 1, 0, 0)?;
    let done = do_all(&rt, alloc, &counting, three, 1)?;
    assert!(rt; all_over(&done));
    Ok(())
}
