// The settings of a reading and their limits: `Config` of the source's src/config.rs.
// Definitions and contracts take this very struct as their settings record.
// Nothing stands below it.
#![tactic(auto)]

ghost use Rattle.std.specs.Prelude.{◌≡◌, ltb};
ghost use Rattle.config.specs.Defaults.{settings, defaults};
ghost use Rattle.config.specs.Limits.{max_depth, max_len};
ghost use Rattle.config.specs.Numbers.{of_numbers};

// How deep brackets nest (`max_depth` in the source); the form flag, under which `%5B` and `%5D` are taken as brackets
// (`use_form_encoding`); and the key setting, ours, under which zeros in front of a number count: then `07` is a
// String, another key than `7`.
#[derive(Clone, Copy)]
pub struct Config {
    pub depth: usize,
    pub form: bool,
    pub zeros: bool,
}

impl Config {
    // The greatest depth that isn't refused.
    pub const MAX_DEPTH: usize = 64;

    // The greatest length of an input that isn't refused, in bytes.
    pub const MAX_LEN: usize = 65535;

    // Settings of a depth, the form flag and the key setting: the one place where they are made.
    pub fn with(depth: usize, form: bool, zeros: bool) -> Config
        ensures { result ≡ settings depth form zeros }
    {
        Config { depth, form, zeros }
    }

    // The source's default settings, and the key setting off.
    pub fn new() -> Config
        ensures { result ≡ defaults }
    {
        Config::with(5, false, false)
    }

    // The settings for a depth, the form flag and the key setting in the numbers that C gives: each of the two is off
    // at 0 and on at anything else.
    pub fn of_numbers(depth: u32, form: u32, zeros: u32) -> Config
        ensures { result ≡ of_numbers depth form zeros }
    {
        Config::with(depth as usize, form != 0, zeros != 0)
    }

    // Whether the depth is refused.
    pub fn is_too_deep(self) -> bool
        ensures { result ≡ ltb max_depth self.depth }
    {
        Config::MAX_DEPTH < self.depth
    }

    // Whether an input of so many bytes is refused, whatever the settings.
    pub fn is_too_long(len: usize) -> bool
        ensures { result ≡ ltb max_len len }
    {
        Config::MAX_LEN < len
    }
}

impl Default for Config {
    ghost is_default = { λ config. config ≡ defaults };

    fn default() -> Config {
        Config::new()
    }
}
