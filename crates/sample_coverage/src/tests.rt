mod areas;
mod charts;
mod figures;
mod replies;
mod search;
