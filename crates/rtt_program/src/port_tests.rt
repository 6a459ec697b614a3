//! Ports that are tried and let go.
use report_spec::PortFault;
use rtt_check::{MemPorts, Ports, RealPorts};
use std::test::Fail;

#[test]
fn a_port_in_memory_answers_as_planned(rt: HostRuntime) -> Result<(), Fail> {
    let mut ports = MemPorts::new(rt.alloc());
    ports.refuse(5002, PortFault::NoRight)?;
    assert!(rt; ports.try_port(5001, "127.0.0.1:5101")? == None);
    assert!(rt; ports.try_port(5002, "127.0.0.1:5102")? == Some(PortFault::NoRight));
    assert!(rt; ports.kept() == 1);
    ports.let_go();
    assert!(rt; ports.kept() == 0);
    Ok(())
}

#[test]
fn a_port_that_is_kept_is_taken_until_it_is_let_go(rt: HostRuntime) -> Result<(), Fail> {
    let mut one = RealPorts::new(&rt, rt.alloc());
    let mut other = RealPorts::new(&rt, rt.alloc());
    assert!(rt; one.try_port(47_613, "127.0.0.1:47614")? == None);
    assert!(rt; other.try_port(47_613, "127.0.0.1:47615")? == Some(PortFault::Taken));
    one.let_go();
    assert!(rt; other.try_port(47_613, "127.0.0.1:47615")? == None);
    Ok(())
}

#[test]
fn another_machine_has_no_address_of_this_one(rt: HostRuntime) -> Result<(), Fail> {
    let mut ports = RealPorts::new(&rt, rt.alloc());
    assert!(rt; ports.try_port(47_616, "192.168.1.5:5101")? == Some(PortFault::NoAddress));
    assert!(rt; ports.try_port(47_616, "localhost:5101")? == Some(PortFault::NoAddress));
    assert!(rt; ports.try_port(47_616, "127.0.0.1:0")? == Some(PortFault::NoAddress));
    Ok(())
}
