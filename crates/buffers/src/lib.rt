// What the answers of the C interface hold: include/yurdelmiz.h.
#![tactic(auto)]

mod answers;

pub use answers::{
    write_adding, write_anomaly, write_counts, write_figure, write_found, write_reading,
    write_salvage, write_size, write_state, write_sun,
};
