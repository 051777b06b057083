use std::alloc::Global;
use std::net::{IpAddr, Ipv4Addr};

/// At more addresses than these a server doesn't listen.
pub const MOST_ADDRESSES: usize = 16;

/// The addresses of these words, 127.0.0.1 where there are none; `None` where a word is no address, or where
/// there are too many.
pub fn addresses_of(alloc: Global, words: &[String]) -> Option<Vec<IpAddr>> {
    let mut addresses = Vec::new(alloc);
    for word in words {
        addresses.push(word.as_str().parse::<IpAddr>().ok()?).ok()?;
    }
    if addresses.is_empty() {
        addresses.push(IpAddr::from(Ipv4Addr::LOCALHOST)).ok()?;
    }
    if addresses.len() <= MOST_ADDRESSES {
        Some(addresses)
    } else {
        None
    }
}
