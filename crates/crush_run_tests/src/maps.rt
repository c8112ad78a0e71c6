//! Has the text of the map with which the tests of runs and editors begin.

pub const PLAIN: &[u8] = b"\
    # begin crush map\n\
    \n\
    # devices\n\
    device 0 osd.0\n\
    device 1 osd.1\n\
    device 2 osd.2\n\
    \n\
    # types\n\
    type 0 osd\n\
    type 1 host\n\
    type 3 rack\n\
    type 11 root\n\
    \n\
    # buckets\n\
    host h1 {\n\
    \tid -2\t\t# do not change unnecessarily\n\
    \t# weight 2.00000\n\
    \talg straw2\n\
    \thash 0\t# rjenkins1\n\
    \titem osd.0 weight 1.00000\n\
    \titem osd.1 weight 1.00000\n\
    }\n\
    host h2 {\n\
    \tid -3\t\t# do not change unnecessarily\n\
    \t# weight 0.50000\n\
    \talg straw2\n\
    \thash 0\t# rjenkins1\n\
    \titem osd.2 weight 0.50000\n\
    }\n\
    root default {\n\
    \tid -1\t\t# do not change unnecessarily\n\
    \t# weight 2.50000\n\
    \talg straw2\n\
    \thash 0\t# rjenkins1\n\
    \titem h1 weight 2.00000\n\
    \titem h2 weight 0.50000\n\
    }\n\
    \n\
    # rules\n\
    \n\
    # end crush map\n";
