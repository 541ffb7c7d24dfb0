use lload_names::Body;

/// The proxy's own Bind, as its request goes upstream (bindconf in lloadd.conf(5)).
#[derive(Debug, Drop)]
pub struct OwnBindBytes {
    pub rest: Body,
}

/// What a connection's part is made of: the own Bind, if one is configured, after how many seconds an operation is due,
/// 0 for never, and the identifier at which the connection retires.
#[derive(Debug, Drop)]
pub struct UpSettings {
    pub own_bind: Option<OwnBindBytes>,
    pub timeout: u32,
    pub id_limit: u32,
}
