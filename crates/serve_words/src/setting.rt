/// How the command serves.
#[derive(Clone, Copy)]
pub struct Settings {
    pub port: u16,
    pub editor_port: u16,

    /// Where drafts are shown, if anywhere.
    pub preview_port: Option<u16>,
    pub workers: u8,
    pub seed: [u8; 32],
    pub idle: u64,

    /// The site's rounds, or one without an end.
    pub rounds: Option<Rounds>,
}

/// How the command serves one site, or a site for each of these names, joined by commas.
#[derive(Clone, Copy)]
pub struct Asked<'a> {
    pub settings: Settings,
    pub contexts: Option<&'a str>,
}

/// After how many connections a round is over, of readers and of editors.
#[derive(Clone, Copy)]
pub struct Rounds {
    pub readers: u32,
    pub editors: u32,
}
