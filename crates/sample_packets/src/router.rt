//! The border router of 1-ff00:0:110 that the datagram crosses.

/// Its forwarding key.
pub const KEY: [u8; 16] = *b"\x2b\x7e\x15\x16\x28\xae\xd2\xa6\xab\xf7\x15\x88\x09\xcf\x4f\x3c";

/// Its configuration: a parent by link 1, a child by link 2, a core AS by link 3, a sibling that has link
/// 4, and a service.
pub const CONFIGURATION: &str =
    "version = 1\nisd_as = \"1-ff00:0:110\"\nkey = \"2b7e151628aed2a6abf7158809cf4f3c\"\n\
    internal = \"10.0.0.1:30000\"\nhost_port = 30041\nprocessors = 1\ncapacity = 4\nseed = 0\nlink = [\n\
    {id=1, kind=\"parent\", local=\"10.1.0.1:40000\", remote=\"10.1.0.2:40000\"},\n\
    {id=2, kind=\"child\", local=\"10.2.0.1:40000\", remote=\"10.2.0.2:40000\"},\n\
    {id=3, kind=\"core\", local=\"10.3.0.1:40000\", remote=\"10.3.0.2:40000\"}]\n\
    sibling = [{id=4, kind=\"child\", at=\"10.0.0.2:30000\"}]\n\
    service = [{number=2, at=\"10.0.0.9:30252\"}]\n";
