//! The order of the messages, by an example, and how a net ends.

use std::test::Fail;
use transfer_net::Net;

// A message that has to be delivered.
struct Parcel(u8);

#[test]
fn a_taken_message_leaves_the_others_in_order(rt: HostRuntime) -> Result<(), Fail> {
    let mut net: Net<u8> = Net::open(rt.alloc(), 4)?;
    net.post(10);
    net.post(20);
    net.post(30);
    net.post(40);
    assert_eq!(rt; net.take(1), 20);
    assert_eq!(rt; net.len(), 3);
    assert_eq!(rt; *net.at(0), 10);
    assert_eq!(rt; *net.at(1), 30);
    assert_eq!(rt; *net.at(2), 40);
    Ok(())
}

#[test]
fn a_net_of_parcels_ends_empty(rt: HostRuntime) -> Result<(), Fail> {
    let mut net: Net<Parcel> = Net::open(rt.alloc(), 1)?;
    net.post(Parcel(7));
    let Parcel(number) = net.take(0);
    assert_eq!(rt; number, 7);
    net.close();
    Ok(())
}
