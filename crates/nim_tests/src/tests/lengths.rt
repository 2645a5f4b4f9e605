use nim_base::{Object, Value};
use nim_message::{FromWorker, report_length};
use std::test::Fail;

/// The workers of the heat block's instance, each of which reports once that it is through.
const WORKERS: u64 = 8;

#[test]
fn an_instance_on_eight_workers_costs_80_bytes_up(rt: HostRuntime) -> Result<(), Fail> {
    let through = FromWorker::Through {
        epoch: 0,
        instance: 441,
    };
    assert_eq!(rt; report_length(&through) * WORKERS, 80);
    Ok(())
}

#[test]
fn reports_have_lengths(rt: HostRuntime) -> Result<(), Fail> {
    let value = FromWorker::Value {
        epoch: 0,
        ticket: 0,
        object: Object(0),
        version: 0,
        value: Value::new(rt.alloc(), 1),
    };
    assert_eq!(rt; report_length(&value), 28);
    assert_eq!(rt; report_length(&FromWorker::NoMemory), 2);
    Ok(())
}
