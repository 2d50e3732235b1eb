use digest::Digest;

/// The first half of SHA-512 of `abc`, as the examples to FIPS 180-4 give it.
const OF_ABC: &[u8; 64] = b"ddaf35a193617abacc417349ae20413112e6fa4e89a97ea20a9eeee64b55d39a";

#[test]
fn a_digest_is_of_all_that_was_added(rt: HostRuntime) {
    let mut digest = Digest::new();
    digest.add(b"ab");
    digest.add(b"c");
    assert!(rt; digest.text() == *OF_ABC);
}
