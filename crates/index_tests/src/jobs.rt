//! The queue of message numbers.
use mail_workers::Jobs;
use std::test::Fail;

#[test]
fn numbers_are_drawn_in_order(rt: HostRuntime) -> Result<(), Fail> {
    let (jobs, mut first) = Jobs::fill(&rt, rt.alloc(), 3)?;
    let mut second = jobs.split(&rt, &mut first)?;
    assert_eq!(rt; jobs.draw(&rt, &mut first), Some(1));
    assert_eq!(rt; jobs.draw(&rt, &mut second), Some(2));
    assert_eq!(rt; jobs.draw(&rt, &mut second), Some(3));
    assert_eq!(rt; jobs.draw(&rt, &mut first), None);
    jobs.join(&rt, &mut first, second);
    assert_eq!(rt; jobs.draw(&rt, &mut first), None);
    Ok(())
}

#[test]
fn no_numbers(rt: HostRuntime) -> Result<(), Fail> {
    let (jobs, mut pass) = Jobs::fill(&rt, rt.alloc(), 0)?;
    assert_eq!(rt; jobs.draw(&rt, &mut pass), None);
    Ok(())
}
