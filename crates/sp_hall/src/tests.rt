ghost use Rattle.std.specs.Prelude.{◌≡◌, IfOk};
ghost use Rattle.std.specs.Arc.{arc_value};

mod book;

use crate::hall::Hall;
use crate::object::Object;
use crate::pass::Pass;
use std::alloc::AllocError;
use std::snapshot::Snapshot;
use std::sync::{Arc, Wait};
use std::test::Fail;
use std::thread;
use std::thread::{Promise, PromisedHandle, Threads};

/// It counts its calls, and tells nothing more.
#[derive(Drop)]
struct Counter {
    calls: u64,
}

impl Object for Counter {
    ghost use Rattle.std.specs.Prelude.{◌≡◌, None};

    type Ask = ();

    type Reply = u64;

    type Entry = ();

    type Start = ();

    ghost shows = { λ c. record { count = c.calls; faults = 0; list = None; first = 0; start = None } };

    ghost acts = { λ before ask after reply. reply ≡ after.calls };

    fn act(&mut self, _ask: ()) -> u64 {
        self.calls = self.calls.saturating_add(1);
        self.calls
    }

    fn count(&self) -> u64 {
        self.calls
    }
}

#[test]
fn a_pass_and_its_other_count_two(rt: HostRuntime) -> Result<(), Fail> {
    let Ok((hall, mut pass)) = Hall::new(rt.alloc(), Counter { calls: 0 }) else {
        panic!(rt; "no memory");
    };
    assert_eq!(rt; hall.call(&rt, &mut pass, ()), 1);
    let Ok(mut other) = hall.split(&mut pass) else {
        panic!(rt; "no memory");
    };
    assert_eq!(rt; hall.call(&rt, &mut other, ()), 2);
    assert_eq!(rt; (pass.seen(), pass.made()), (1, 1));
    assert_eq!(rt; (other.seen(), other.made()), (2, 1));
    hall.meet(&mut pass, other);
    assert_eq!(rt; (pass.seen(), pass.made()), (2, 2));
    let mut passes = Vec::new(rt.alloc());
    passes.push(pass)?;
    let Ok(counter) = hall.close(passes) else {
        panic!(rt; "no memory");
    };
    assert_eq!(rt; counter.calls, 2);
    Ok(())
}

/// A worker hands back the pass that it was given.
#[derive(Drop)]
struct SamePass(Snapshot<Pass<Counter>>);

impl Promise<Pass<Counter>> for SamePass {
    ghost kept_by = { λ p r. (r.hall ≡ p.0.value.hall) × (r.parts ≡ p.0.value.parts) };
}

fn call_often<R: Wait>(rt: &R, hall: &Hall<Counter>, mut pass: Pass<Counter>) -> Pass<Counter>
    requires { pass.hall ≡ hall.now }
    ensures hall { result.hall ≡ pass.hall }
    ensures parts { result.parts ≡ pass.parts }
{
    for _ in 0..100 {
        hall.call(rt, &mut pass, ());
    }
    pass
}

fn start<R: Threads + Wait + Clone + Send + Drop + 'static>(
    rt: &R,
    hall: &Arc<Hall<Counter>>,
    pass: Pass<Counter>,
) -> Result<PromisedHandle<Pass<Counter>, SamePass>, AllocError>
    requires { pass.hall ≡ arc_value hall.now }
    ensures { IfOk result (λ h. (h.promise.0.value.hall ≡ pass.hall) × (h.promise.0.value.parts ≡ pass.parts)) }
{
    let theirs = Arc::try_clone(hall)?;
    let their_rt = rt.clone()?;
    let promise = SamePass(Snapshot::of(&pass));
    let handle = thread::spawn_with(
        rt,
        promise,
        move || -> Pass<Counter>
            requires { pass.hall ≡ arc_value theirs }
            ensures hall { result.hall ≡ pass.hall }
            ensures parts { result.parts ≡ pass.parts }
        { call_often(&their_rt, &theirs, pass) },
    )?;
    Ok(handle)
}

#[test]
fn two_threads_of_a_hundred_calls_count_two_hundred(rt: HostRuntime) -> Result<(), Fail> {
    let Ok((hall, mut pass)) = Hall::new(rt.alloc(), Counter { calls: 0 }) else {
        panic!(rt; "no memory");
    };
    let Ok(other) = hall.split(&mut pass) else {
        panic!(rt; "no memory");
    };
    let hall = Arc::new(rt.alloc(), hall)?;
    let one = start(&rt, &hall, pass)?;
    let two = start(&rt, &hall, other)?;
    let mut pass = one.join(&rt);
    hall.meet(&mut pass, two.join(&rt));
    assert_eq!(rt; (pass.seen(), pass.made()), (200, 200));
    let Ok(hall) = Arc::try_unwrap(hall) else {
        panic!(rt; "still shared");
    };
    let mut passes = Vec::new(rt.alloc());
    passes.push(pass)?;
    let Ok(counter) = hall.close(passes) else {
        panic!(rt; "no memory");
    };
    assert_eq!(rt; counter.calls, 200);
    Ok(())
}
