mod copies;
mod files;
mod jobs;
mod laws;
mod lengths;
mod plane;
mod reuse;
