//! Has the texts of maps, and the JSON documents that are expected for these maps.

/// The expected document for the example map. It has the same devices, types, buckets and rules as
/// the output of `crushtool --dump` for this map. In contrast to this output, these lists are
/// inside of the member `map`, the tunables are only those of the map's text, the members of each
/// object are in the order of their names, and everything is on one line.
pub const EXAMPLE_DOCUMENT: &[u8] = b"\
    {\"map\":{\
    \"buckets\":[\
    {\"alg\":\"straw2\",\"hash\":\"rjenkins1\",\"id\":-1,\"items\":[\
    {\"id\":-2,\"pos\":0,\"weight\":131072},{\"id\":-3,\"pos\":1,\"weight\":32768}],\
    \"name\":\"default\",\"type_id\":11,\"type_name\":\"root\",\"weight\":163840},\
    {\"alg\":\"straw2\",\"hash\":\"rjenkins1\",\"id\":-2,\"items\":[\
    {\"id\":0,\"pos\":0,\"weight\":65536},{\"id\":1,\"pos\":1,\"weight\":65536}],\
    \"name\":\"h1\",\"type_id\":1,\"type_name\":\"host\",\"weight\":131072},\
    {\"alg\":\"straw2\",\"hash\":\"rjenkins1\",\"id\":-3,\"items\":[\
    {\"id\":2,\"pos\":0,\"weight\":32768}],\
    \"name\":\"h2\",\"type_id\":1,\"type_name\":\"host\",\"weight\":32768}],\
    \"devices\":[\
    {\"id\":0,\"name\":\"osd.0\"},{\"id\":1,\"name\":\"osd.1\"},{\"id\":2,\"name\":\"osd.2\"}],\
    \"rules\":[\
    {\"rule_id\":0,\"rule_name\":\"replicated_rule\",\"steps\":[\
    {\"item\":-1,\"item_name\":\"default\",\"op\":\"take\"},\
    {\"num\":0,\"op\":\"chooseleaf_firstn\",\"type\":\"host\"},\
    {\"op\":\"emit\"}],\"type\":1}],\
    \"tunables\":{\"choose_total_tries\":50},\
    \"types\":[\
    {\"name\":\"osd\",\"type_id\":0},{\"name\":\"host\",\"type_id\":1},\
    {\"name\":\"rack\",\"type_id\":3},{\"name\":\"root\",\"type_id\":11}]}}\n";

/// A map with a device that is in no bucket. The map has no type with the number 0.
pub const STRAY_MAP: &[u8] = b"\
    device 7 osd.7 class ssd\n\
    device 3 osd.3\n\
    type 1 root\n\
    root default { id -4 alg straw hash 0 item osd.7 weight 1.5 }\n";
